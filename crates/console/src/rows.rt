ghost use Rattle.std.specs.Prelude.{◌≡◌, ◌+◌, ◌^◌, ◌<◌, length};
ghost use Rattle.console.specs.Rows.{stored_from, loaded_from};

use memory::Memory;

/// Writes the bytes one after the other, from address `first` on.
#[tactic(auto, using(crate::proofs::InOrder::stored_all, crate::proofs::InOrder::stored_more))]
pub fn store<M: Memory>(memory: &mut M, first: usize, bytes: &[u8])
    requires { first + length bytes.now < 2 ^ 64 }
    ensures pages { (M.Memory.pages memory.new).page ≡ stored_from (M.Memory.effect memory.old) (M.Memory.pages memory.old).page first bytes.now }
    // The memory's own fact, which no type of ours can hold: the memory is the caller's.
    ensures effect { M.Memory.effect memory.new ≡ M.Memory.effect memory.old }
{
    for (i, byte) in bytes.iter().enumerate() {
        memory.write(first + i, *byte);
    }
}

/// Reads bytes one after the other, from address `first` on, until the buffer is full.
#[tactic(auto, using(crate::proofs::InOrder::loaded_all))]
pub fn load<M: Memory>(memory: &M, first: usize, buffer: &mut [u8])
    requires { first + length buffer.old < 2 ^ 64 }
    ensures { buffer.new ≡ loaded_from (M.Memory.pages memory.now).page first (length buffer.old) }
{
    for (i, byte) in buffer.iter_mut().enumerate() {
        *byte = memory.read(first + i);
    }
}

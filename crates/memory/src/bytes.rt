ghost use Rattle.std.specs.Prelude.{◌≡◌, length};
ghost use Rattle.memory.specs.Kinds.{bytes_pages, ram_effect, stored};
ghost use Rattle.memory.specs.Pages.{read_at, write_at};

use crate::address::END;

/// The byte at an address of bytes that begin at address 0.
#[tactic(auto, using(crate::proofs::Tables::bytes_read))]
pub(crate) fn read(bytes: &[u8], address: usize) -> u8
    ensures { result ≡ read_at (bytes_pages bytes.now).page address }
{
    match bytes.get(address) {
        Some(byte) if address < END => *byte,
        _ => 255,
    }
}

/// Puts the byte at the address.
#[tactic(auto, using(crate::proofs::Tables::ram_write))]
pub(crate) fn write(bytes: &mut [u8], address: usize, byte: u8)
    ensures pages { (bytes_pages bytes.new).page ≡ write_at (ram_effect (length bytes.old)) (bytes_pages bytes.old).page address byte }
    ensures bytes { bytes.new ≡ stored bytes.old address byte }
{
    // tested by hand: of a write through `get_mut` the proof knows no other byte afterwards
    if address < END && address < bytes.len() {
        bytes[address] = byte;
    }
}

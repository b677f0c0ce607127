//! Memories of 64 pages of 256 bytes: RAM, ROM, a status page, and two memories end to end.
#![tactic(auto)]

ghost use Rattle.std.specs.Prelude.{◌≡◌};
ghost use Rattle.memory.specs.Pages.{Pages, Effect, read_at, write_at};

pub mod address;
pub mod any;
mod bytes;
pub mod end_to_end;
pub mod ram;
pub mod rom;
pub mod status_page;

/// A memory, read and written by the byte. Every address and every byte is accepted: from
/// `address::END` on a read answers 255 and a write has no effect.
pub trait Memory {
    // What the memory holds.
    ghost pages: { Self → Pages };

    // What a write does to the page that it goes to; this never changes.
    ghost effect: { Self → Effect };

    /// The byte at the address.
    fn read(&self, address: usize) -> u8
        ensures { result ≡ read_at (pages self.now).page address };

    /// Writes the byte at the address, by the memory's effect rule. Every other page keeps its bytes.
    fn write(&mut self, address: usize, byte: u8)
        ensures pages { (pages self.new).page ≡ write_at (effect self.old) (pages self.old).page address byte }
        ensures effect { effect self.new ≡ effect self.old };
}

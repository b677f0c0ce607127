ghost use Rattle.std.specs.Prelude.{◌≡◌, length};
ghost use Rattle.memory.specs.Kinds.{bytes_pages, ram_effect, stored};
ghost use Rattle.memory.specs.Pages.{write_at};

use crate::{Memory, bytes};

/// The bytes that the owner lends, from address 0. Those past the 16,384th stay as they are.
#[derive(Debug, Drop)]
pub struct Ram<'a> {
    bytes: &'a mut [u8],
}

impl<'a> Ram<'a> {
    /// RAM over these bytes.
    pub fn new(bytes: &'a mut [u8]) -> Ram<'a>
        ensures pages { ⟦<Ram<'a> as Memory>⟧.pages result ≡ bytes_pages bytes.old }
        ensures effect { ⟦<Ram<'a> as Memory>⟧.effect result ≡ ram_effect (length bytes.old) }
    {
        Ram { bytes }
    }
}

impl<'a> Memory for Ram<'a> {
    ghost pages = { λ m. bytes_pages m.bytes.now };

    ghost effect = { λ m. ram_effect (length m.bytes.now) };

    fn read(&self, address: usize) -> u8 {
        bytes::read(self.bytes, address)
    }

    fn write(&mut self, address: usize, byte: u8)
        // the trait's two clauses again: whoever calls a method that has its own clauses knows only those
        ensures pages { let m = ⟦<Ram<'a> as Memory>⟧ in (m.pages self.new).page ≡ write_at (m.effect self.old) (m.pages self.old).page address byte }
        ensures effect { let m = ⟦<Ram<'a> as Memory>⟧ in m.effect self.new ≡ m.effect self.old }
        ensures bytes { self.new.bytes.now ≡ stored self.old.bytes.now address byte }
    {
        bytes::write(self.bytes, address, byte);
    }
}

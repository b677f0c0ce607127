ghost use Rattle.std.specs.Prelude.{◌≡◌};
ghost use Rattle.memory.specs.Kinds.{bytes_pages, rom_effect};

use crate::{Memory, bytes};

/// Bytes that are only read, from address 0; a write has no effect.
#[derive(Clone, Copy, Debug, PartialEq, Eq)]
pub struct Rom<'a> {
    bytes: &'a [u8],
}

impl<'a> Rom<'a> {
    /// ROM with these bytes.
    pub fn new(bytes: &'a [u8]) -> Rom<'a>
        ensures pages { ⟦<Rom<'a> as Memory>⟧.pages result ≡ bytes_pages bytes.now }
        ensures effect { ⟦<Rom<'a> as Memory>⟧.effect result ≡ rom_effect }
    {
        Rom { bytes }
    }
}

impl Memory for Rom<'_> {
    ghost pages = { λ m. bytes_pages m.bytes.now };

    ghost effect = { λ m. rom_effect };

    fn read(&self, address: usize) -> u8 {
        bytes::read(self.bytes, address)
    }

    fn write(&mut self, _address: usize, _byte: u8) {}
}

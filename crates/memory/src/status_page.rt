ghost use Rattle.std.specs.Prelude.{◌≡◌};
ghost use Rattle.memory.specs.Kinds.{status_pages, status_effect, cleared};
ghost use Rattle.memory.specs.Pages.{write_at};

use crate::Memory;
use crate::address::{END, split};

/// One page of status bits, with its page number: a write clears the bits that are 1 in the byte
/// written. With a number of 64 or more it is nowhere.
#[derive(Debug, Drop)]
pub struct StatusPage<'a> {
    number: usize,
    bytes: &'a mut [u8; 256],
}

impl<'a> StatusPage<'a> {
    /// The status page with this number and these starting bytes.
    pub fn new(number: usize, bytes: &'a mut [u8; 256]) -> StatusPage<'a>
        ensures pages { ⟦<StatusPage<'a> as Memory>⟧.pages result ≡ status_pages number bytes.old }
        ensures effect { ⟦<StatusPage<'a> as Memory>⟧.effect result ≡ status_effect number }
    {
        StatusPage { number, bytes }
    }
}

impl<'a> Memory for StatusPage<'a> {
    ghost pages = { λ m. status_pages m.number m.bytes.now };

    ghost effect = { λ m. status_effect m.number };

    #[tactic(auto, using(crate::proofs::Tables::status_read, crate::proofs::Tables::status_elsewhere))]
    fn read(&self, address: usize) -> u8 {
        let (page, offset) = split(address);
        if address < END && page == self.number {
            // a place of its own: `self.bytes[offset]`, behind two references, gets no proof
            let bytes: &[u8; 256] = self.bytes;
            bytes[offset]
        } else {
            255
        }
    }

    #[tactic(auto, using(crate::proofs::Tables::status_write))]
    fn write(&mut self, address: usize, byte: u8)
        // the trait's two clauses again: whoever calls a method that has its own clauses knows only those
        ensures pages { let m = ⟦<StatusPage<'a> as Memory>⟧ in (m.pages self.new).page ≡ write_at (m.effect self.old) (m.pages self.old).page address byte }
        ensures effect { let m = ⟦<StatusPage<'a> as Memory>⟧ in m.effect self.new ≡ m.effect self.old }
        ensures bytes { self.new.bytes.now ≡ cleared self.old.number self.old.bytes.now address byte }
    {
        let (page, offset) = split(address);
        if address < END && page == self.number {
            // read through a `&`: by it the proof knows that the page has 256 bytes
            let bytes: &[u8; 256] = self.bytes;
            self.bytes[offset] = bytes[offset] & !byte;
        }
    }
}

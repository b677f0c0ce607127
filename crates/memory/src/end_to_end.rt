ghost use Rattle.memory.specs.Kinds.{joined_pages, joined_effect, part_after};
ghost use Rattle.memory.specs.Pages.{page_of, write_at};
ghost use Rattle.std.specs.Prelude.{◌≡◌, not, nat_lt};

use crate::Memory;
use crate::address::split;

/// Two memories end to end: the pages below the border are the first's, the others the second's,
/// each under its own page number.
#[derive(Debug, Drop)]
pub struct EndToEnd<A, B> {
    border: usize,
    first: A,
    second: B,
}

impl<A: Memory, B: Memory> EndToEnd<A, B> {
    /// The two memories end to end, with this border.
    pub fn new(border: usize, first: A, second: B) -> EndToEnd<A, B>
        ensures pages { ⟦<EndToEnd<A, B> as Memory>⟧.pages result ≡ joined_pages border (A.Memory.pages first) (B.Memory.pages second) }
        ensures effect { ⟦<EndToEnd<A, B> as Memory>⟧.effect result ≡ joined_effect border (A.Memory.effect first) (B.Memory.effect second) }
    {
        EndToEnd {
            border,
            first,
            second,
        }
    }
}

impl<A: Memory, B: Memory> Memory for EndToEnd<A, B> {
    ghost pages = { λ m. joined_pages m.border (A.Memory.pages m.first) (B.Memory.pages m.second) };

    ghost effect = { λ m. joined_effect m.border (A.Memory.effect m.first) (B.Memory.effect m.second) };

    fn read(&self, address: usize) -> u8 {
        let (page, _) = split(address);
        if page < self.border {
            self.first.read(address)
        } else {
            self.second.read(address)
        }
    }

    fn write(&mut self, address: usize, byte: u8)
        // the trait's two clauses again: whoever calls a method that has its own clauses knows only those
        ensures pages { let m = ⟦<EndToEnd<A, B> as Memory>⟧ in (m.pages self.new).page ≡ write_at (m.effect self.old) (m.pages self.old).page address byte }
        ensures effect { let m = ⟦<EndToEnd<A, B> as Memory>⟧ in m.effect self.new ≡ m.effect self.old }
        ensures first { (A.Memory.pages self.new.first).page ≡ part_after (nat_lt (page_of address) self.old.border) (A.Memory.effect self.old.first) (A.Memory.pages self.old.first) address byte }
        ensures second { (B.Memory.pages self.new.second).page ≡ part_after (not (nat_lt (page_of address) self.old.border)) (B.Memory.effect self.old.second) (B.Memory.pages self.old.second) address byte }
    {
        let (page, _) = split(address);
        if page < self.border {
            self.first.write(address, byte);
        } else {
            self.second.write(address, byte);
        }
    }
}

ghost use Rattle.std.specs.Prelude.{◌≡◌, suc, ◌≤◌, List, ◌∷◌, length};
ghost use Rattle.rules.specs.Visits.{visiting};
ghost use Rattle.unit.specs.Model.{fields_of};
ghost use Rattle.unit.specs.Visits.{begun, visit_reply, reply_of};

use crate::fields::PageFields;
use memory::Memory;
use std::mem;
use vocabulary::access::Access;
use vocabulary::refusal::Refusal;

/// How a visit went: the number of accesses made, and the fault that ended it.
#[derive(Clone, Copy, Debug, PartialEq, Eq)]
pub struct Visited {
    pub made: usize,
    pub fault: Option<Refusal>,
}

/// A visit's hold on the register: its end puts the earlier domain back.
struct Restore<'a> {
    register: &'a mut u16,
    earlier: u16,
}

impl Drop for Restore<'_> {
    fn drop(self)
        ensures { self.exit.0.now ≡ self.entry.earlier }
    {
        let Restore { register, earlier } = self;
        *register = earlier;
    }
}

impl PageFields {
    // Makes the access at this place of a visit: the byte that it gives, which of a write is 0. The last clause is the
    // memory's own fact, as in `write`.
    fn access<M: Memory>(
        &self,
        domain: u16,
        memory: &mut M,
        access: Access,
        place: usize,
    ) -> Result<u8, Refusal>
        ensures visit { (rest : List Access) → begun result (M.Memory.pages memory.new).page (visiting (fields_of self.now) (M.Memory.effect memory.old) rest domain (M.Memory.pages memory.new).page (suc place)) ≡ visiting (fields_of self.now) (M.Memory.effect memory.old) (access ∷ rest) domain (M.Memory.pages memory.old).page place }
        ensures effect { M.Memory.effect memory.new ≡ M.Memory.effect memory.old }
    {
        // One check for all three kinds, and not one in `load` and one in `store`: a visit of few accesses is shorter so.
        self.check(domain, access, place)?;
        match access {
            Access::Read(address) | Access::Fetch(address) => Ok(memory.read(address)),
            Access::Write(address, byte) => {
                memory.write(address, byte);
                Ok(0)
            }
        }
    }

    /// Makes the accesses in order under the domain, up to the first fault, and puts the byte of each
    /// into the buffer. The register holds the domain meanwhile, and the earlier one again afterwards.
    pub fn visit<M: Memory>(
        &self,
        register: &mut u16,
        memory: &mut M,
        domain: u16,
        accesses: &[Access],
        buffer: &mut [u8],
    ) -> Visited
        requires { length accesses.now ≤ length buffer.old }
        ensures register { register.new ≡ register.old }
        ensures reply { visit_reply buffer.new result ≡ reply_of (visiting (fields_of self.now) (M.Memory.effect memory.old) accesses.now domain (M.Memory.pages memory.old).page 0) buffer.old }
        // The last clause is the memory's own fact, as in `write`.
        ensures pages { (M.Memory.pages memory.new).page ≡ (visiting (fields_of self.now) (M.Memory.effect memory.old) accesses.now domain (M.Memory.pages memory.old).page 0).left }
        ensures effect { M.Memory.effect memory.new ≡ M.Memory.effect memory.old }
    {
        let earlier = mem::replace(register, domain);
        let guard = Restore { register, earlier };
        // By index, stopping at a fault: a rule of the project names this form.
        for (i, &access) in accesses.iter().enumerate() {
            match self.access(*guard.register, memory, access, i) {
                Ok(byte) => buffer[i] = byte,
                Err(fault) => {
                    return Visited {
                        made: i,
                        fault: Some(fault),
                    };
                }
            }
        }
        Visited {
            made: accesses.len(),
            fault: None,
        }
    }
}

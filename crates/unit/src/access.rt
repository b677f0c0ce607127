ghost use Rattle.std.specs.Prelude.{◌≡◌};
ghost use Rattle.vocabulary.specs.declared.access.Access.TheVariants.{Read, Write, Fetch};
ghost use Rattle.vocabulary.specs.Accesses.{address_of};
ghost use Rattle.memory.specs.Pages.{byte_in};
ghost use Rattle.rules.specs.Console.{done, value};
ghost use Rattle.rules.specs.Told.{refusal_in, told};
ghost use Rattle.rules.specs.Visits.{fault_of, reply_to, pages_after};
ghost use Rattle.unit.specs.Model.{fields_of};
ghost use Rattle.unit.specs.Visits.{fault_at, answered, pages_unless};

use crate::fields::PageFields;
use memory::Memory;
use memory::address::{END, split};
use vocabulary::access::Access;
use vocabulary::refusal::Refusal;

impl PageFields {
    /// Permits the access, which stands at this place of a visit, where the domain and the field of
    /// the access share a context.
    pub fn check(&self, domain: u16, access: Access, place: usize) -> Result<(), Refusal>
        ensures { refusal_in result ≡ fault_at place (fault_of (fields_of self.now) domain access) }
    {
        let address = access.address();
        if address >= END {
            return Err(Refusal::NoSuchAddress(place));
        }
        let (page, _) = split(address);
        if domain & self.field(access.right(), page) == 0 {
            return Err(Refusal::NotPermitted(place));
        }
        Ok(())
    }

    /// Reads a byte under a domain.
    pub fn read<M: Memory>(&self, domain: u16, memory: &M, address: usize) -> Result<u8, Refusal>
        ensures { told value result ≡ answered 0 (fault_of (fields_of self.now) domain (Read address)) (reply_to (M.Memory.pages memory.now).page (Read address)) }
    {
        self.load(domain, memory, Access::Read(address), 0)
    }

    /// Fetches a byte under a domain. It and `read` are a line each: a load of any access would serve writes too.
    pub fn fetch<M: Memory>(&self, domain: u16, memory: &M, address: usize) -> Result<u8, Refusal>
        ensures { told value result ≡ answered 0 (fault_of (fields_of self.now) domain (Fetch address)) (reply_to (M.Memory.pages memory.now).page (Fetch address)) }
    {
        self.load(domain, memory, Access::Fetch(address), 0)
    }

    /// Writes a byte under a domain.
    pub fn write<M: Memory>(
        &self,
        domain: u16,
        memory: &mut M,
        address: usize,
        byte: u8,
    ) -> Result<(), Refusal>
        ensures answer { told (λ _. done) result ≡ answered 0 (fault_of (fields_of self.now) domain (Write address byte)) done }
        ensures pages { (M.Memory.pages memory.new).page ≡ pages_unless (fault_of (fields_of self.now) domain (Write address byte)) (M.Memory.pages memory.old).page (pages_after (M.Memory.effect memory.old) (M.Memory.pages memory.old).page (Write address byte)) }
        // The memory's own fact, which no type of ours can hold: the memory is the caller's.
        ensures effect { M.Memory.effect memory.new ≡ M.Memory.effect memory.old }
    {
        self.store(domain, memory, address, byte, 0)
    }

    // A read or a fetch, with its place, which is 0 outside a visit: the byte that it gives.
    pub(crate) fn load<M: Memory>(
        &self,
        domain: u16,
        memory: &M,
        access: Access,
        place: usize,
    ) -> Result<u8, Refusal>
        ensures { told value result ≡ answered place (fault_of (fields_of self.now) domain access) (value (byte_in (M.Memory.pages memory.now).page (address_of access))) }
    {
        self.check(domain, access, place)?;
        Ok(memory.read(access.address()))
    }

    // A write, with its place likewise. The last clause is the memory's own fact, as in `write`.
    pub(crate) fn store<M: Memory>(
        &self,
        domain: u16,
        memory: &mut M,
        address: usize,
        byte: u8,
        place: usize,
    ) -> Result<(), Refusal>
        ensures answer { told (λ _. done) result ≡ answered place (fault_of (fields_of self.now) domain (Write address byte)) done }
        ensures pages { (M.Memory.pages memory.new).page ≡ pages_unless (fault_of (fields_of self.now) domain (Write address byte)) (M.Memory.pages memory.old).page (pages_after (M.Memory.effect memory.old) (M.Memory.pages memory.old).page (Write address byte)) }
        ensures effect { M.Memory.effect memory.new ≡ M.Memory.effect memory.old }
    {
        self.check(domain, Access::Write(address, byte), place)?;
        memory.write(address, byte);
        Ok(())
    }
}

ghost use Rattle.rules.specs.Console.{done, value, accepted, exec, app};
ghost use Rattle.rules.specs.Console as rules;
ghost use Rattle.rules.specs.Told.{told};
ghost use Rattle.vocabulary.specs.declared.access.Access.TheVariants.{Read, Write, Fetch};
ghost use Rattle.rules.specs.Calls.{buffer_after};
ghost use Rattle.unit.specs.Visits.{visit_reply};
ghost use Rattle.std.specs.Prelude.{◌≡◌};

use crate::console::Console;
use crate::inspection::Inspection;
use memory::Memory;
use one_way::OneWay;
use table::running::Running;
use unit::fields::PageFields;
use unit::visit::Visited;
use vocabulary::access::Access;
use vocabulary::parameter::Parameter;
use vocabulary::refusal::Refusal;

/// The console in the turn of an app. It is not `Drop`: it has to be closed.
pub struct Turn<'a, F, M> {
    pub(crate) function: F,
    pub(crate) memory: M,
    pub(crate) fields: &'a PageFields,
    pub(crate) app: Running<'a>,
    pub(crate) register: u16,
}

impl<'a, F: OneWay, M: Memory> Turn<'a, F, M> {
    ghost use Rattle.guard.specs.Model.{Obeys, between, during, inspected};

    /// Ends the turn: the register is saved.
    pub fn close(self) -> Console<'a, F, M>
        ensures { Obeys (during F.OneWay M.Memory self.entry) (exec rules.close) (accepted done) (between F.OneWay M.Memory result) }
    {
        let Turn {
            function,
            memory,
            fields,
            mut app,
            register,
        } = self;
        app.save(register);
        Console {
            function,
            memory,
            fields,
            slots: app.into_slots(),
        }
    }

    /// Loads the domain that the password opens, and answers it.
    pub fn activate(&mut self, password: u64) -> Result<u16, Refusal>
        ensures { Obeys (during F.OneWay M.Memory self.old) (app (rules.activate password)) (told value result) (during F.OneWay M.Memory self.new) }
    {
        let opened = self.app.find(password)?;
        self.register = opened.domain;
        Ok(opened.domain)
    }

    /// Adds a context to the domain at a place of the app's chain, and answers that domain.
    pub fn grant(&mut self, master: u64, place: usize, context: usize) -> Result<u16, Refusal>
        ensures { Obeys (during F.OneWay M.Memory self.old) (app (rules.grant master place context)) (told value result) (during F.OneWay M.Memory self.new) }
    {
        self.app.grant(master, place, context)
    }

    /// Removes a context likewise; a call by name.
    pub fn revoke(&mut self, master: u64, place: usize, context: usize) -> Result<u16, Refusal>
        ensures { Obeys (during F.OneWay M.Memory self.old) (app (rules.revoke master place context)) (told value result) (during F.OneWay M.Memory self.new) }
    {
        self.app.revoke(master, place, context)
    }

    /// Answers the password `n` places after this one in the app's own chain.
    pub fn derive(&mut self, password: u64, n: usize) -> Result<u64, Refusal>
        ensures { Obeys (during F.OneWay M.Memory self.old) (app (rules.derive password n)) (told value result) (during F.OneWay M.Memory self.new) }
    {
        self.app.derive(password, n)
    }

    /// Gives the app a new parameter and its chain. Domains and registers keep their values.
    pub fn rekey(&mut self, master: u64, parameter: Parameter) -> Result<(), Refusal>
        ensures { Obeys (during F.OneWay M.Memory self.old) (app (rules.rekey master parameter)) (told (λ _. done) result) (during F.OneWay M.Memory self.new) }
    {
        self.app.rekey(&self.function, master, parameter)
    }

    /// Reads a byte under the domain in the register.
    pub fn read(&mut self, address: usize) -> Result<u8, Refusal>
        ensures { Obeys (during F.OneWay M.Memory self.old) (app (rules.access (Read address))) (told value result) (during F.OneWay M.Memory self.new) }
    {
        self.fields.read(self.register, &self.memory, address)
    }

    /// Fetches a byte under the domain in the register. It differs from `read` in the right alone; both are calls by
    /// name.
    pub fn fetch(&mut self, address: usize) -> Result<u8, Refusal>
        ensures { Obeys (during F.OneWay M.Memory self.old) (app (rules.access (Fetch address))) (told value result) (during F.OneWay M.Memory self.new) }
    {
        self.fields.fetch(self.register, &self.memory, address)
    }

    /// Writes a byte under the domain in the register.
    pub fn write(&mut self, address: usize, byte: u8) -> Result<(), Refusal>
        ensures { Obeys (during F.OneWay M.Memory self.old) (app (rules.access (Write address byte))) (told (λ _. done) result) (during F.OneWay M.Memory self.new) }
    {
        self.fields
            .write(self.register, &mut self.memory, address, byte)
    }

    /// Makes the accesses in order under the domain that the password opens, up to the first fault.
    pub fn visit(
        &mut self,
        password: u64,
        accesses: &[Access],
        buffer: &mut [u8],
    ) -> Result<Visited, Refusal>
        ensures obeys { Obeys (during F.OneWay M.Memory self.old) (app (rules.visit password accesses.now buffer.old)) (told (visit_reply buffer.new) result) (during F.OneWay M.Memory self.new) }
        ensures buffer { buffer.new ≡ buffer_after buffer.old (told (visit_reply buffer.new) result) }
    {
        if accesses.len() > 64 {
            return Err(Refusal::TooManyAccesses);
        }
        if buffer.len() < accesses.len() {
            return Err(Refusal::ShortBuffer);
        }
        let opened = self.app.find(password)?;
        Ok(
            self.fields.visit(
                &mut self.register,
                &mut self.memory,
                opened.domain,
                accesses,
                buffer,
            ),
        )
    }

    /// Looks at the console in a turn. A trait for both looks would have both bodies, and nothing is generic in them.
    pub fn inspect(&self) -> Inspection<'_, M>
        ensures { inspected F.OneWay M.Memory result ≡ during F.OneWay M.Memory self.now }
    {
        let (slots, own) = self.app.inspect();
        Inspection {
            fields: self.fields,
            slots,
            register: self.register,
            running: Some(own),
            memory: &self.memory,
        }
    }
}

ghost use Rattle.std.specs.Prelude.{◌≡◌, ◌<◌, false, Some};
ghost use Rattle.memory.specs.Pages.{put};
ghost use Rattle.rules.specs.Console.{done, value, is_none};
ghost use Rattle.rules.specs.Calls.{grant_rule, revoke_rule, derive_rule, rekey_rule};
ghost use Rattle.rules.specs.Told.{told};
ghost use Rattle.table.specs.Model.{slot_of, slots_of, in_turn, Finds, Follows, Closes};

use crate::slot::Slot;
use crate::slots::{Opened, SlotTable};
use one_way::OneWay;
use vocabulary::parameter::Parameter;
use vocabulary::refusal::Refusal;

/// The slot table in the turn of the app in a slot, which stays taken until the turn closes. Each call says that it
/// keeps the slot's number and the table that was lent (`SameTurn`), since no type says what a call leaves alone.
#[derive(Drop)]
pub struct Running<'a> {
    slots: &'a mut SlotTable,
    own: usize,
    ghost seated: { own < 8 },
    ghost taken: { is_none (slots_of slots.now own) ≡ false },
}

impl<'a> Running<'a> {
    ghost use Rattle.table.specs.Turns.{slots_in, SameTurn};

    /// The turn of the app in a slot, which has to be taken: `SlotTable::saved` tells.
    pub fn new(slots: &'a mut SlotTable, own: usize) -> Running<'a>
        requires slot { own < 8 }
        requires taken { is_none (slots_of slots.old own) ≡ false }
        ensures slots { slots_in result ≡ slots_of slots.old }
        ensures own { result.own ≡ own }
        ensures same { result.slots.ghost_name ≡ slots.entry.ghost_name }
    {
        Running { slots, own }
    }

    /// Looks at the table, and at the slot of the app.
    pub fn inspect(&self) -> (&SlotTable, usize)
        ensures table { result.0.now ≡ self.now.slots.now }
        ensures own { result.1 ≡ self.now.own }
    {
        (&*self.slots, self.own)
    }

    // The record of the app.
    fn app(&self) -> &Slot
        ensures { slots_in self.now self.now.own ≡ Some (slot_of result.now) }
    {
        // By a name of its own, since no proof reads an element through `&` and `&mut` at once.
        let slots = &*self.slots;
        match &slots.slots[self.own] {
            Some(app) => app,
            None => unreachable!(),
        }
    }

    // Lends the app's slot, and writes its record whole: a rule of the project names this form.
    fn write(&mut self, app: Slot)
        ensures slots { slots_in self.new ≡ put (slots_in self.old) self.old.own (Some (slot_of app)) }
        ensures same { SameTurn self.old self.new }
    {
        if let Some(slot) = &mut self.slots.slots[self.own] {
            *slot = app;
        }
    }

    /// Saves the register of the app.
    pub fn save(&mut self, register: u16)
        ensures state { Closes (slots_in self.old) (slots_in self.new) self.old.own register }
        ensures same { SameTurn self.old self.new }
    {
        let saved = self.app().with_register(register);
        self.write(saved);
    }

    /// Hands the table back.
    pub fn into_slots(self) -> &'a mut SlotTable
        ensures slots { result.now ≡ self.entry.slots.now }
        ensures same { result.ghost_name ≡ self.entry.slots.ghost_name }
    {
        let Running { slots, own: _ } = self;
        slots
    }

    /// Looks `w` up: the app's own chain comes first, then the other taken slots from 0 upwards.
    pub fn find(&self, w: u64) -> Result<Opened, Refusal>
        ensures { Finds (slots_in self.now) self.now.own w result }
    {
        self.slots.find(self.own, w)
    }

    /// Adds a context to the domain at a place of the app's chain, and answers that domain.
    pub fn grant(&mut self, w: u64, place: usize, context: usize) -> Result<u16, Refusal>
        ensures follows { Follows (slots_in self.old) (slots_in self.new) (told value result) (in_turn self.old.own (λ k σ. grant_rule k self.old.own σ w place context)) }
        ensures same { SameTurn self.old self.new }
    {
        let app = self.app();
        let domain = app.granted(w, place, context)?;
        let changed = app.with_domain(place, domain);
        self.write(changed);
        Ok(domain)
    }

    /// Removes a context likewise. The lines that both share would make a function whose clauses are longer than they.
    pub fn revoke(&mut self, w: u64, place: usize, context: usize) -> Result<u16, Refusal>
        ensures follows { Follows (slots_in self.old) (slots_in self.new) (told value result) (in_turn self.old.own (λ k σ. revoke_rule k self.old.own σ w place context)) }
        ensures same { SameTurn self.old self.new }
    {
        let app = self.app();
        let domain = app.revoked(w, place, context)?;
        let changed = app.with_domain(place, domain);
        self.write(changed);
        Ok(domain)
    }

    /// The password `n` places after `w` in the app's own chain.
    pub fn derive(&self, w: u64, n: usize) -> Result<u64, Refusal>
        ensures { Follows (slots_in self.now) (slots_in self.now) (told value result) (in_turn self.now.own (λ k σ. derive_rule k σ w n)) }
    {
        self.app().derived(w, n)
    }

    /// Gives the app a new parameter and its chain, made whole beside the old one.
    pub fn rekey<F: OneWay>(
        &mut self,
        function: &F,
        w: u64,
        parameter: Parameter,
    ) -> Result<(), Refusal>
        ensures follows { Follows (slots_in self.old) (slots_in self.new) (told (λ _. done) result) (in_turn self.old.own (λ k σ. rekey_rule F.OneWay.meaning k self.old.own σ w parameter)) }
        ensures same { SameTurn self.old self.new }
    {
        let app = self.app();
        let passwords = app.rekeyed(function, w, parameter)?;
        let changed = app.with_chain(parameter, passwords);
        self.write(changed);
        Ok(())
    }
}

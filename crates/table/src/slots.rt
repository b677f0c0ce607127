ghost use Rattle.std.specs.Prelude.{◌≡◌, ◌<◌, ◌≤◌, ◌⊎◌, false, IfSome, IfOk, IfErr, OnOk, Some, None};
ghost use Rattle.vocabulary.specs.declared.refusal.Refusal.TheVariants.{NoSuchSlot, SlotFree};
ghost use Rattle.memory.specs.Pages.{put};
ghost use Rattle.rules.specs.Console.{done, value, is_none};
ghost use Rattle.rules.specs.Calls.{create_rule, end_rule, turn_rule, grant_rule, revoke_rule, derive_rule, rekey_rule};
ghost use Rattle.rules.specs.LookUp.{domain_at, search_slots, place_of, passwords_of};
ghost use Rattle.table.specs.Model.{entry_of, slot_of, slots_of, found_at, in_slot, in_turn, Answers, Finds, Follows, Turns, Closes};
ghost use Rattle.rules.specs.Told.{told};

use crate::chain::new_chain;
use crate::running::Running;
use crate::slot::Slot;
use one_way::OneWay;
use vocabulary::found::Found;
use vocabulary::parameter::Parameter;
use vocabulary::refusal::Refusal;

/// Where a password was found, and the domain that stands there.
#[derive(Clone, Copy, Debug, PartialEq, Eq)]
pub struct Opened {
    pub found: Found,
    pub domain: u16,
}

/// The eight slots.
#[derive(Clone, Copy, Debug, PartialEq, Eq)]
pub struct SlotTable {
    pub(crate) slots: [Option<Slot>; 8],
}

impl SlotTable {
    /// All slots free.
    pub fn new() -> SlotTable
        ensures { slots_of result ≡ (λ i. None) }
    {
        SlotTable { slots: [None; 8] }
    }

    /// Takes a free slot for a new app, with the chain of its parameter and master and with its domains.
    pub fn create<F: OneWay>(
        &mut self,
        function: &F,
        slot: usize,
        parameter: Parameter,
        master: u64,
        domains: &[u16],
    ) -> Result<(), Refusal>
        ensures { Follows (slots_of self.old) (slots_of self.new) (told (λ _. done) result) (λ k. create_rule F.OneWay.meaning k slot parameter master domains.now) }
    {
        if self.entry(slot)?.is_some() {
            return Err(Refusal::SlotTaken);
        }
        if domains.is_empty() || domains.len() > 8 {
            return Err(Refusal::DomainCount);
        }
        let passwords = new_chain(function, parameter, master, domains.len())?;
        self.store(slot, Slot::new(parameter, passwords, domains));
        Ok(())
    }

    // What stands in a slot: an app, or nothing.
    pub(crate) fn entry(&self, slot: usize) -> Result<&Option<Slot>, Refusal>
        ensures there { IfOk result (λ e. (slot < 8) × (entry_of e.now ≡ slots_of self.now slot)) }
        ensures nowhere { IfErr result (λ e. (8 ≤ slot) × (e ≡ NoSuchSlot)) }
    {
        self.slots.get(slot).ok_or(Refusal::NoSuchSlot)
    }

    // The app in a slot.
    fn taken(&self, slot: usize) -> Result<&Slot, Refusal>
        ensures there { IfOk result (λ app. (slot < 8) × (slots_of self.now slot ≡ Some (slot_of app.now))) }
        ensures absent { IfErr result (λ e. (8 ≤ slot) × (e ≡ NoSuchSlot) ⊎ (slot < 8) × (slots_of self.now slot ≡ None) × (e ≡ SlotFree)) }
    {
        self.entry(slot)?.as_ref().ok_or(Refusal::SlotFree)
    }

    // Stores the record of an app.
    fn store(&mut self, slot: usize, app: Slot)
        requires { slot < 8 }
        ensures { slots_of self.new ≡ put (slots_of self.old) slot (Some (slot_of app)) }
    {
        self.slots[slot] = Some(app);
    }

    /// Frees a slot.
    pub fn end(&mut self, slot: usize) -> Result<(), Refusal>
        ensures { Follows (slots_of self.old) (slots_of self.new) (told (λ _. done) result) (λ k. end_rule k slot) }
    {
        self.taken(slot)?;
        self.slots[slot] = None;
        Ok(())
    }

    /// The saved register of a taken slot.
    pub fn saved(&self, slot: usize) -> Result<u16, Refusal>
        ensures answer { Answers (slots_of self.now) (told (λ _. done) result) (λ k. turn_rule k slot) }
        ensures state { Turns (slots_of self.now) result slot }
        ensures taken { OnOk result ((slot < 8) × (is_none (slots_of self.now slot) ≡ false)) }
    {
        Ok(self.taken(slot)?.saved)
    }

    /// Saves the register of the app in a taken slot. This call and the three below are for an owner of the table who
    /// holds no turn: each takes the turn of the app for itself alone.
    pub fn save(&mut self, own: usize, register: u16)
        requires slot { own < 8 }
        requires taken { is_none (slots_of self.old own) ≡ false }
        ensures { Closes (slots_of self.old) (slots_of self.new) own register }
    {
        Running::new(self, own).save(register);
    }

    /// Adds a context to the domain at a place of the chain of the app in a taken slot, and answers that domain.
    pub fn grant(
        &mut self,
        own: usize,
        w: u64,
        place: usize,
        context: usize,
    ) -> Result<u16, Refusal>
        requires slot { own < 8 }
        requires taken { is_none (slots_of self.old own) ≡ false }
        ensures follows { Follows (slots_of self.old) (slots_of self.new) (told value result) (in_turn own (λ k σ. grant_rule k own σ w place context)) }
        ensures taken { is_none (slots_of self.new own) ≡ false }
    {
        Running::new(self, own).grant(w, place, context)
    }

    /// Removes a context likewise.
    pub fn revoke(
        &mut self,
        own: usize,
        w: u64,
        place: usize,
        context: usize,
    ) -> Result<u16, Refusal>
        requires slot { own < 8 }
        requires taken { is_none (slots_of self.old own) ≡ false }
        ensures follows { Follows (slots_of self.old) (slots_of self.new) (told value result) (in_turn own (λ k σ. revoke_rule k own σ w place context)) }
        ensures taken { is_none (slots_of self.new own) ≡ false }
    {
        Running::new(self, own).revoke(w, place, context)
    }

    /// Gives the app in a taken slot a new parameter and its chain, made whole beside the old one.
    pub fn rekey<F: OneWay>(
        &mut self,
        function: &F,
        own: usize,
        w: u64,
        parameter: Parameter,
    ) -> Result<(), Refusal>
        requires slot { own < 8 }
        requires taken { is_none (slots_of self.old own) ≡ false }
        ensures follows { Follows (slots_of self.old) (slots_of self.new) (told (λ _. done) result) (in_turn own (λ k σ. rekey_rule F.OneWay.meaning k own σ w parameter)) }
        ensures taken { is_none (slots_of self.new own) ≡ false }
    {
        Running::new(self, own).rekey(function, w, parameter)
    }

    /// The password `n` places after `w` in the chain of the app in a taken slot.
    pub fn derive(&self, slot: usize, w: u64, n: usize) -> Result<u64, Refusal>
        ensures { Follows (slots_of self.now) (slots_of self.now) (told value result) (in_slot slot (λ k σ. derive_rule k σ w n)) }
    {
        self.taken(slot)?.derived(w, n)
    }

    /// Looks `w` up for the app in a slot: its own chain comes first, then the other taken slots from 0 upwards. Where
    /// the slot is free, or there is none, that is all of them.
    #[tactic(auto, unfolding(rules::specs::LookUp::look_up))]
    pub fn find(&self, own: usize, w: u64) -> Result<Opened, Refusal>
        ensures { Finds (slots_of self.now) own w result }
    {
        if let Ok(Some(app)) = self.entry(own) {
            if let Some(place) = app.place(w) {
                let found = Found { slot: own, place };
                return Ok(Opened {
                    found,
                    domain: app.domains[place],
                });
            }
        }
        self.elsewhere(own, w).ok_or(Refusal::NotFound)
    }

    // The search through the slots other than the app's own, whose chain lacks `w`.
    #[tactic(auto, using(crate::proofs::LookUp::look_up_steps))]
    fn elsewhere(&self, own: usize, w: u64) -> Option<Opened>
        requires { place_of w (passwords_of (slots_of self.now own)) ≡ None }
        ensures found { found_at result ≡ search_slots (slots_of self.now) w 8 0 }
        ensures domain { IfSome result (λ x. x.domain ≡ domain_at (slots_of self.now) x.found.slot x.found.place) }
    {
        // Slots and places, left by label at the match: a rule of the project names this form.
        let mut opened = None;
        'search: for (slot, entry) in self.slots.iter().enumerate() {
            if slot == own {
                continue;
            }
            let Some(app) = entry else {
                continue;
            };
            for (place, password) in app.passwords().iter().enumerate() {
                if *password == w {
                    let found = Found { slot, place };
                    opened = Some(Opened {
                        found,
                        domain: app.domains[place],
                    });
                    break 'search;
                }
            }
        }
        opened
    }
}

ghost use Rattle.std.specs.Prelude.{◌≡◌, ◌<◌, ◌≤◌, true, length, take, IfSome, IfOk, OnOk, bit_or, slice_index};
ghost use Rattle.rules.specs.Console.{Console, Outcome, holding, value, answer_of, after};
ghost use Rattle.rules.specs.Calls.{revoke_asks, grant_asks, derive_rule, with_domain, with_saved, with_chain, new_slot};
ghost use Rattle.rules.specs.Domains.{with_context, without_context};
ghost use Rattle.rules.specs.LookUp.{place_of};
ghost use Rattle.rules.specs.Told.{asked, told};
ghost use Rattle.table.specs.Sound.{all_within, no_repeat};

use crate::chain::new_chain;
use one_way::OneWay;
use vocabulary::parameter::Parameter;
use vocabulary::refusal::Refusal;

/// A taken slot: the chain's passwords with their domains, of which `length` count. The chain has 1 to 8 passwords, no
/// two of them are equal, and no domain lies outside the reach.
#[derive(Clone, Copy, Debug, PartialEq, Eq)]
pub struct Slot {
    pub(crate) parameter: Parameter,
    // Two plain arrays beside the length: there is no heap here, and a rule of the project names this form.
    pub(crate) passwords: [u64; 8],
    pub(crate) domains: [u16; 8],
    pub(crate) length: usize,
    pub(crate) saved: u16,
    pub(crate) reach: u16,
    ghost count: { (1 ≤ length) × (length ≤ 8) },
    ghost distinct: { no_repeat (take length passwords) ≡ true },
    ghost within: { all_within reach (take length domains) ≡ true },
}

impl Slot {
    ghost use Rattle.table.specs.Model.{slot_of, new_passwords, rekey_asks};

    /// The passwords of the chain.
    pub(crate) fn passwords(&self) -> &[u64]
        ensures { result.now ≡ (slot_of self.now).passwords }
    {
        &self.passwords[..self.length]
    }

    /// The place of `w` in the chain.
    pub(crate) fn place(&self, w: u64) -> Option<usize>
        ensures found { result ≡ place_of w (slot_of self.now).passwords }
        ensures within { IfSome result (λ i. i < self.now.length) }
    {
        self.passwords().iter().position(|password| *password == w)
    }

    /// The questions of revoke, which grant asks too: the master password, the place and the context.
    fn may_change(&self, w: u64, place: usize, context: usize) -> Result<(), Refusal>
        ensures asked { (o : Outcome) → asked result o ≡ revoke_asks (slot_of self.now) w place context o }
        ensures bounds { OnOk result ((place < self.now.length) × (context < 16)) }
    {
        if w != self.passwords[0] {
            return Err(Refusal::NotMaster);
        }
        if place == 0 || place >= self.length {
            return Err(Refusal::NoSuchPlace);
        }
        if context >= 16 {
            return Err(Refusal::NoSuchContext);
        }
        Ok(())
    }

    /// The domain at a place with a context added.
    #[tactic(auto, using(crate::proofs::Reach::domain_steps))]
    pub(crate) fn granted(&self, w: u64, place: usize, context: usize) -> Result<u16, Refusal>
        ensures asked { (o : Outcome) → asked result o ≡ grant_asks (slot_of self.now) w place context o }
        ensures domain { IfOk result (λ d. d ≡ with_context (slice_index (slot_of self.now).domains place) context) }
        ensures sound { IfOk result (λ d. (place < self.now.length) × (bit_or d self.now.reach ≡ self.now.reach)) }
    {
        self.may_change(w, place, context)?;
        if (self.domains[0] >> context) & 1 == 0 {
            return Err(Refusal::NotHeld(place));
        }
        Ok(self.domains[place] | (1u16 << context))
    }

    /// The domain at a place with a context removed.
    #[tactic(auto, using(crate::proofs::Reach::domain_steps))]
    pub(crate) fn revoked(&self, w: u64, place: usize, context: usize) -> Result<u16, Refusal>
        ensures asked { (o : Outcome) → asked result o ≡ revoke_asks (slot_of self.now) w place context o }
        ensures domain { IfOk result (λ d. d ≡ without_context (slice_index (slot_of self.now).domains place) context) }
        ensures sound { IfOk result (λ d. (place < self.now.length) × (bit_or d self.now.reach ≡ self.now.reach)) }
    {
        self.may_change(w, place, context)?;
        let old = self.domains[place];
        Ok(old ^ (old & (1u16 << context)))
    }

    /// The password `n` places after `w` in the chain.
    pub(crate) fn derived(&self, w: u64, n: usize) -> Result<u64, Refusal>
        ensures answer { (k : Console) → told value result ≡ answer_of (derive_rule k (slot_of self.now) w n) }
        ensures state { (k : Console) → k ≡ after k (derive_rule k (slot_of self.now) w n) }
    {
        let place = self.place(w).ok_or(Refusal::NotOwn)?;
        if n >= self.length - place {
            return Err(Refusal::NoSuchPlace);
        }
        Ok(self.passwords[place + n])
    }

    /// The passwords of a new parameter, made whole beside the old ones.
    pub(crate) fn rekeyed<F: OneWay>(
        &self,
        function: &F,
        w: u64,
        parameter: Parameter,
    ) -> Result<[u64; 8], Refusal>
        ensures asked { (o : Outcome) → asked result o ≡ rekey_asks F.OneWay.meaning (slot_of self.now) w parameter o }
        ensures chain { IfOk result (λ ps. take (length (slot_of self.now).passwords) ps ≡ new_passwords F.OneWay.meaning (slot_of self.now) w parameter) }
        ensures apart { IfOk result (λ ps. no_repeat (take self.now.length ps) ≡ true) }
    {
        if w != self.passwords[0] {
            return Err(Refusal::NotMaster);
        }
        new_chain(function, parameter, w, self.length)
    }

    /// The record with another saved register.
    pub(crate) fn with_register(mut self, register: u16) -> Slot
        ensures { slot_of result ≡ with_saved (slot_of self) (holding register) }
    {
        self.saved = register;
        self
    }

    /// The record with another domain at a place.
    #[tactic(auto, using(crate::proofs::Reach::domain_steps))]
    pub(crate) fn with_domain(mut self, place: usize, domain: u16) -> Slot
        requires place { place < self.length }
        requires within { bit_or domain self.reach ≡ self.reach }
        ensures { slot_of result ≡ with_domain (slot_of self) place domain }
    {
        self.domains[place] = domain;
        self
    }

    /// The record with a new parameter and its chain.
    pub(crate) fn with_chain(mut self, parameter: Parameter, passwords: [u64; 8]) -> Slot
        requires { no_repeat (take self.length passwords) ≡ true }
        ensures { slot_of result ≡ with_chain (slot_of self) parameter (take (length (slot_of self).passwords) passwords) }
    {
        self.parameter = parameter;
        self.passwords = passwords;
        self
    }

    /// The record of a new app: the saved register is the domain at place 0, the reach the union of the domains.
    #[tactic(auto, using(crate::proofs::Reach::union_steps))]
    pub(crate) fn new(parameter: Parameter, passwords: [u64; 8], domains: &[u16]) -> Slot
        requires count { (1 ≤ length domains.now) × (length domains.now ≤ 8) }
        requires distinct { no_repeat (take (length domains.now) passwords) ≡ true }
        ensures { slot_of result ≡ new_slot parameter (take (length domains.now) passwords) domains.now }
    {
        let mut held = [0u16; 8];
        held[..domains.len()].copy_from_slice(domains);
        Slot {
            parameter,
            passwords,
            domains: held,
            length: domains.len(),
            saved: domains[0],
            reach: domains.iter().fold(0, |reach, domain| reach | domain),
        }
    }
}

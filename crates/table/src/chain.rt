ghost use Rattle.std.specs.Prelude.{◌≡◌, ◌≤◌, true, take, IfOk};
ghost use Rattle.one_way.specs.Chains.{chain as passwords_from};
ghost use Rattle.rules.specs.Console.{Outcome};
ghost use Rattle.rules.specs.Calls.{admit};
ghost use Rattle.rules.specs.LookUp as rules;
ghost use Rattle.rules.specs.Told.{asked};
ghost use Rattle.table.specs.Sound.{no_repeat};

use one_way::OneWay;
use one_way::chain::chain;
use vocabulary::parameter::Parameter;
use vocabulary::refusal::Refusal;

/// The lowest place whose password an earlier place holds too. By a loop: with `position` and a closure that looks at
/// the places before, the proof stays open.
#[tactic(auto, using(crate::proofs::Search::repeat_steps))]
fn first_repeat(passwords: &[u64]) -> Option<usize>
    ensures { result ≡ rules.first_repeat passwords.now }
{
    for (i, password) in passwords.iter().enumerate() {
        if passwords[..i].contains(password) {
            return Some(i);
        }
    }
    None
}

/// A new chain, made whole: its high half is admitted, and no password repeats. It is a plain array with the length
/// beside it, since there is no heap; so a clause and no type says that none repeats.
#[tactic(auto, using(one_way::proofs::Places::front), unfolding(crate::specs::Sound::no_repeat))]
pub(crate) fn new_chain<F: OneWay>(
    function: &F,
    parameter: Parameter,
    master: u64,
    length: usize,
) -> Result<[u64; 8], Refusal>
    requires { length ≤ 8 }
    ensures apart { IfOk result (λ ps. no_repeat (take length ps) ≡ true) }
    ensures chain { IfOk result (λ ps. take length ps ≡ passwords_from F.OneWay.meaning.H parameter length master) }
    ensures admitted { (o : Outcome) → asked result o ≡ admit F.OneWay.meaning.greatest parameter (passwords_from F.OneWay.meaning.H parameter length master) o }
{
    if parameter.high > F::GREATEST_HIGH {
        return Err(Refusal::HighHalf);
    }
    // Eight passwords by value, whatever the length: a rule of the project names this form.
    let passwords = chain(function, parameter, master, length);
    if let Some(place) = first_repeat(&passwords[..length]) {
        return Err(Refusal::Repeat(place));
    }
    Ok(passwords)
}

ghost use Rattle.std.specs.Prelude.{◌≡◌, min};
ghost use Rattle.one_way.specs.Chains.{chain as passwords_from, eight_places};

use crate::OneWay;
use vocabulary::parameter::Parameter;

/// The chain of `length` passwords from the master, at most eight; the places behind it hold 0. Eight places by value,
/// since there is no heap.
pub fn chain<F: OneWay>(function: &F, parameter: Parameter, master: u64, length: usize) -> [u64; 8]
    ensures { result ≡ eight_places (passwords_from F.OneWay.meaning.H parameter (min length 8) master) }
{
    let mut passwords = [0u64; 8];
    if length == 0 {
        return passwords;
    }
    passwords[0] = master;
    // By index: over the places themselves, the function would be called once more than there are passwords to make.
    for i in 1..length.min(8) {
        passwords[i] = function.step(parameter, passwords[i - 1]);
    }
    passwords
}

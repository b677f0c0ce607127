//! One-way functions from passwords to passwords, and the chains that they make.
#![tactic(auto)]

ghost use Rattle.std.specs.Prelude.{◌≡◌, ℕ};
ghost use Rattle.one_way.specs.OneWay.{Meaning};

use vocabulary::parameter::Parameter;

pub mod block_cipher;
pub mod chain;
pub mod drill;

/// A one-way function, from a parameter and a password to a password. Every parameter and every
/// password has an answer; which parameters an app may use is told by `GREATEST_HIGH`.
pub trait OneWay {
    /// The greatest high half of a parameter that is admitted.
    const GREATEST_HIGH: u64;

    ghost GREATEST_HIGH: { ℕ };

    // The function itself, and the greatest high half.
    ghost meaning: { Meaning };

    /// The password after this one.
    fn step(&self, parameter: Parameter, password: u64) -> u64
        ensures { result ≡ meaning.H parameter password };

    // The constant is the meaning's.
    ghost greatest: { GREATEST_HIGH ≡ meaning.greatest };
}

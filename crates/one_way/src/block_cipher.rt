ghost use Rattle.std.specs.Prelude.{◌≡◌, ℕ, bit_xor};
ghost use Rattle.vocabulary.specs.declared.parameter.Parameter.{Parameter};

use vocabulary::parameter::Parameter;

/// A block cipher with blocks of 64 bits, whose key is made from a parameter. Every parameter makes a key;
/// `GREATEST_KEY` tells up to which high half no bit of the parameter is left out of it.
pub trait BlockCipher {
    /// The greatest high half of a parameter that the key holds whole.
    const GREATEST_KEY: u64;

    ghost GREATEST_KEY: { ℕ };

    // The block encrypted under the parameter.
    ghost encrypted: { Parameter → ℕ → ℕ };

    /// The block encrypted under the parameter.
    fn encrypt(parameter: Parameter, block: u64) -> u64
        ensures { result ≡ encrypted parameter block };

    /// The step of the cipher as a one-way function: the password encrypted under the parameter, XOR the password.
    fn feed_forward(parameter: Parameter, password: u64) -> u64
        ensures { result ≡ bit_xor (encrypted parameter password) password }
    {
        Self::encrypt(parameter, password) ^ password
    }
}

//! PRESENT-80 (ISO/IEC 29192-2): a block of 64 bits, a key of 80, 31 rounds.
ghost use Rattle.std.specs.Prelude.{◌≡◌, ◌/◌, ◌^◌, ◌<◌, refl};
ghost use Rattle.ciphers.specs.Functions.{present};
ghost use Rattle.ciphers.specs.Parts.{boxed_top, change as change_of};
ghost use Rattle.ciphers.specs.Present.{encrypted, key_of, p_layer, s_box_layer, update};

use crate::patterns::column;
use one_way::OneWay;
use one_way::block_cipher::BlockCipher;
use std::marker::Model;
use vocabulary::parameter::Parameter;

const ROUNDS: u64 = 31;

// What the S-box changes at the highest nibble, for each nibble.
const CHANGES: [u64; 16] = [
    0xc000_0000_0000_0000,
    0x4000_0000_0000_0000,
    0x4000_0000_0000_0000,
    0x8000_0000_0000_0000,
    0xd000_0000_0000_0000,
    0x5000_0000_0000_0000,
    0xc000_0000_0000_0000,
    0xa000_0000_0000_0000,
    0xb000_0000_0000_0000,
    0x7000_0000_0000_0000,
    0x5000_0000_0000_0000,
    0x3000_0000_0000_0000,
    0x8000_0000_0000_0000,
    0xa000_0000_0000_0000,
    0xf000_0000_0000_0000,
    0xd000_0000_0000_0000,
];

/// PRESENT-80. The key's bits 79 to 64 are the low 16 bits of the parameter's high half, its bits 63 to 0 the low half.
#[derive(Clone, Copy, Debug)]
pub struct Present;

impl BlockCipher for Present {
    const GREATEST_KEY: u64 = 65_535;

    ghost GREATEST_KEY = { present.greatest };

    ghost encrypted = { λ p. encrypted (key_of p) };

    fn encrypt(parameter: Parameter, block: u64) -> u64 {
        let mut key = Register::from(parameter);
        let mut state = block ^ key.round_key();
        // The number counts the rounds, and indexes nothing.
        for i in 0..ROUNDS {
            key = key.update(i + 1);
            state = layer(state) ^ key.round_key();
        }
        state
    }
}

/// The password encrypted under the parameter, XOR the password.
impl OneWay for Present {
    const GREATEST_HIGH: u64 = Self::GREATEST_KEY;

    ghost GREATEST_HIGH = { present.greatest };

    ghost meaning = { present };

    ghost greatest = { refl };

    fn step(&self, parameter: Parameter, password: u64) -> u64 {
        Self::feed_forward(parameter, password)
    }
}

// The S-box layer and then the permutation.
fn layer(state: u64) -> u64
    ensures { result ≡ p_layer (s_box_layer state) }
{
    column(state)
        + (column(state >> 8) << 2)
        + (column(state >> 16) << 4)
        + (column(state >> 24) << 6)
}

// The key register of 80 bits: its bits 79 to 16, and a number that has its lowest 19 bits, above which the bits mean
// nothing.
#[derive(Drop)]
struct Register {
    upper: u64,
    lower: u64,
}

impl Model for Register {
    ghost use Rattle.std.specs.Prelude.{◌≡◌, ℕ, ◌+◌, ◌*◌, ◌/◌, ◌%◌, ◌^◌};

    ghost Value = { ℕ };

    ghost view = { λ k. k.upper * 2 ^ 16 + k.lower % 2 ^ 16 };

    // Bits 18 to 16 lie in both.
    ghost invariant = { λ k. k.lower / 2 ^ 16 % 2 ^ 3 ≡ k.upper % 2 ^ 3 };
}

impl From<Parameter> for Register {
    ghost from_gives = { λ p k. k ≡ key_of p };

    fn from(parameter: Parameter) -> Register {
        Register {
            upper: (parameter.high & 0xffff) << 48 | parameter.low >> 16,
            lower: parameter.low,
        }
    }
}

impl Register {
    // The round key: bits 79 to 16.
    fn round_key(&self) -> u64
        ensures { result ≡ self.now / 2 ^ 16 }
    {
        self.upper
    }

    // The register after the round of this number.
    fn update(&self, round: u64) -> Register
        requires { round < 32 }
        ensures { result ≡ update round self.now }
    {
        let turned = self.lower << 45 | self.upper >> 19;
        Register {
            upper: substitute_top(turned) ^ (round >> 1),
            lower: (self.upper >> 3) ^ (round << 15),
        }
    }
}

// The S-box at the highest nibble.
fn substitute_top(upper: u64) -> u64
    ensures { result ≡ boxed_top upper }
{
    upper ^ change((upper >> 60) as u8)
}

// What the S-box changes, where the highest nibble is this one.
fn change(nibble: u8) -> u64
    requires { nibble < 16 }
    ensures { result ≡ change_of nibble }
{
    CHANGES[usize::from(nibble)]
}

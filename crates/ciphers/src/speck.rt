//! Speck64/128 (IACR ePrint 2013/404): a block of two words of 32 bits, a key of four, 27 rounds.
ghost use Rattle.std.specs.Prelude.{◌≡◌, refl};
ghost use Rattle.ciphers.specs.Functions.{speck};
ghost use Rattle.ciphers.specs.Speck.{encrypted, key_of, number, round as round_of, words};

use one_way::OneWay;
use one_way::block_cipher::BlockCipher;
use std::marker::Model;
use vocabulary::parameter::Parameter;

const ROUNDS: u32 = 27;

/// Speck64/128. The parameter's words from the top are l2, l1, l0 and k0 of the key, and the block's upper 32 bits are
/// its first word.
#[derive(Clone, Copy, Debug)]
pub struct Speck;

impl BlockCipher for Speck {
    const GREATEST_KEY: u64 = u64::MAX;

    ghost GREATEST_KEY = { speck.greatest };

    ghost encrypted = { λ p. encrypted (key_of p) };

    fn encrypt(parameter: Parameter, block: u64) -> u64 {
        let Words(mut l2, mut l1) = Words::from(parameter.high);
        let Words(mut l0, mut key) = Words::from(parameter.low);
        let mut state = Words::from(block);
        // The number is the round's key for the schedule, and indexes nothing.
        for i in 0..ROUNDS {
            state = state.round(key);
            let Words(l3, next_key) = Words(l0, key).round(i);
            l0 = l1;
            l1 = l2;
            l2 = l3;
            key = next_key;
        }
        state.into()
    }
}

/// The password encrypted under the parameter, XOR the password.
impl OneWay for Speck {
    const GREATEST_HIGH: u64 = Self::GREATEST_KEY;

    ghost GREATEST_HIGH = { speck.greatest };

    ghost meaning = { speck };

    ghost greatest = { refl };

    fn step(&self, parameter: Parameter, password: u64) -> u64 {
        Self::feed_forward(parameter, password)
    }
}

// A number of 64 bits as two words, the upper one first.
#[derive(Clone, Copy)]
struct Words(u32, u32);

impl Model for Words {
    ghost use Rattle.std.specs.Prelude.{ℕ};

    ghost Value = { ℕ × ℕ };

    ghost view = { λ w. (w.0, w.1) };

    ghost inverse = { λ w. (w.0, w.1) };
}

impl Words {
    // The round function, which the key schedule uses too.
    fn round(self, key: u32) -> Words
        ensures { result ≡ round_of key self }
    {
        let Words(first, second) = self;
        let changed = first.rotate_right(8).wrapping_add(second) ^ key;
        Words(changed, second.rotate_left(3) ^ changed)
    }
}

impl From<u64> for Words {
    ghost from_gives = { λ n w. w ≡ words n };

    fn from(n: u64) -> Words {
        Words((n >> 32) as u32, (n & 0xffff_ffff) as u32)
    }
}

impl From<Words> for u64 {
    ghost from_gives = { λ w n. n ≡ number w };

    fn from(words: Words) -> u64 {
        u64::from(words.0) << 32 | u64::from(words.1)
    }
}

//! Two block ciphers as one-way functions: Speck64/128 and PRESENT-80.
#![tactic(auto)]

ghost use Rattle.std.specs.Prelude.{◌≡◌};
ghost use Rattle.ciphers.specs.Vectors.{PublishedVectors};

mod patterns;
pub mod present;
pub mod speck;

/// Answers 0. Its contract says that the definitions of both ciphers give the published vectors: a theorem stands as
/// the contract of a function of its own.
pub fn vectors_hold() -> u8
    ensures { (result ≡ 0) × PublishedVectors }
{
    0
}

//! The one-way functions, for the C program that times them: one exported name for each, since C has no generic call.
#![tactic(auto)]

ghost use Rattle.std.specs.Prelude.{◌≡◌};
ghost use Rattle.ciphers.specs.Functions.{present, speck};

use ciphers::present::Present;
use ciphers::speck::Speck;
use one_way::OneWay;
use vocabulary::parameter::Parameter;

/// The password after this one, by Speck64/128.
#[unsafe(no_mangle)]
pub extern "C" fn guard_speck_step(high: u64, low: u64, password: u64) -> u64
    ensures { result ≡ speck.H (record { high = high; low = low }) password }
{
    Speck.step(Parameter { high, low }, password)
}

/// The password after this one, by PRESENT-80.
#[unsafe(no_mangle)]
pub extern "C" fn guard_present_step(high: u64, low: u64, password: u64) -> u64
    ensures { result ≡ present.H (record { high = high; low = low }) password }
{
    Present.step(Parameter { high, low }, password)
}

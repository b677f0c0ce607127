ghost use Rattle.std.specs.Prelude.{refl};
ghost use Rattle.one_way.specs.OneWay.{drill};

use crate::OneWay;
use vocabulary::parameter::Parameter;

/// The sum of the password and the low half, modulo 2^64: no secret, but easy to follow by hand.
#[derive(Clone, Copy, Debug)]
pub struct Drill;

impl OneWay for Drill {
    const GREATEST_HIGH: u64 = 0;

    ghost GREATEST_HIGH = { 0 };

    ghost meaning = { drill };

    ghost greatest = { refl };

    fn step(&self, parameter: Parameter, password: u64) -> u64 {
        password.wrapping_add(parameter.low)
    }
}

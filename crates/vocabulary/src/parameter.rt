ghost use Rattle.std.specs.Prelude.{Some};
ghost use Rattle.vocabulary.specs.Parameters.{parameter_text};

use std::fmt;

/// The parameter of a one-way function: two halves of 64 bits.
#[derive(Clone, Copy, Debug, PartialEq, Eq)]
pub struct Parameter {
    pub high: u64,
    pub low: u64,
}

impl fmt::Display for Parameter {
    ghost output = { λ p. Some (parameter_text p) };

    fn fmt<W: fmt::Write>(&self, f: &mut fmt::Formatter<W>) -> fmt::Result {
        write!(f, "({}, {})", self.high, self.low)
    }
}

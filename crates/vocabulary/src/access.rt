ghost use Rattle.std.specs.Prelude.{◌≡◌};
ghost use Rattle.vocabulary.specs.Accesses.{NamesRight, address_of, right_of};

/// What a context may do on a page.
#[derive(Clone, Copy, Debug, PartialEq, Eq)]
pub enum Right {
    Read,
    Write,
    Execute,
}

/// A number that names no right.
#[derive(Clone, Copy, Debug, PartialEq, Eq)]
pub struct UnknownRight(pub u8);

impl TryFrom<u8> for Right {
    type Error = UnknownRight;

    ghost try_from_gives = { NamesRight };

    /// The right of this number in a boot table: 1 read, 2 write, 4 execute.
    fn try_from(number: u8) -> Result<Right, UnknownRight> {
        match number {
            1 => Ok(Right::Read),
            2 => Ok(Right::Write),
            4 => Ok(Right::Execute),
            _ => Err(UnknownRight(number)),
        }
    }
}

/// One access of one byte, by its address; a write has its byte.
#[derive(Clone, Copy, Debug, PartialEq, Eq)]
pub enum Access {
    Read(usize),
    Write(usize, u8),
    Fetch(usize),
}

impl Access {
    /// The address of the byte.
    pub fn address(&self) -> usize
        ensures { result ≡ address_of self.now }
    {
        match *self {
            Access::Read(address) | Access::Write(address, _) | Access::Fetch(address) => address,
        }
    }

    /// The right that the access uses.
    pub fn right(&self) -> Right
        ensures { result ≡ right_of self.now }
    {
        match self {
            Access::Read(_) => Right::Read,
            Access::Write(_, _) => Right::Write,
            Access::Fetch(_) => Right::Execute,
        }
    }
}

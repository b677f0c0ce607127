use unit::visit::Visited;
use vocabulary::access::Access;
use vocabulary::parameter::Parameter;
use vocabulary::refusal::Refusal;

/// A call of the executive, or of the app whose turn it is. A visit brings its buffer. A call is a value and no
/// closure, since lists of calls are kept, told apart and answered.
#[derive(Debug, Drop)]
pub enum Call {
    Create {
        slot: usize,
        parameter: Parameter,
        master: u64,
        domains: Vec<u16>,
    },
    End(usize),
    Turn(usize),
    Close,
    Activate(u64),
    Visit {
        password: u64,
        accesses: Vec<Access>,
        buffer: Vec<u8>,
    },
    Grant {
        master: u64,
        place: usize,
        context: usize,
    },
    Revoke {
        master: u64,
        place: usize,
        context: usize,
    },
    Derive {
        password: u64,
        n: usize,
    },
    Rekey {
        master: u64,
        parameter: Parameter,
    },
    Read(usize),
    Write(usize, u8),
    Fetch(usize),
}

/// What an accepted call answers, where it has no buffer.
#[derive(Clone, Copy, Debug, PartialEq, Eq)]
pub enum Reply {
    Done,
    Domain(u16),
    Password(u64),
    Byte(u8),
}

/// What came of a call. A visit has its buffer back; a call that the turns do not allow comes back whole.
#[derive(Debug, Drop)]
pub enum Outcome {
    Answered(Result<Reply, Refusal>),
    Visited(Result<Visited, Refusal>, Vec<u8>),
    OutOfTurn(Call),
}

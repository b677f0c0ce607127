ghost use Rattle.std.specs.Prelude.{◌≡◌};
ghost use Rattle.vocabulary.specs.Refusals.{layer_number, reason};

/// A layer of the guard.
#[derive(Clone, Copy, Debug, PartialEq, Eq)]
pub enum Layer {
    /// The reader of the boot table.
    Reader = 1,
    /// The slot table.
    Table,
    /// The protection unit.
    Unit,
    /// The turn of an app.
    Turn,
}

impl From<Layer> for u8 {
    ghost from_gives = { λ layer number. number ≡ layer_number layer };

    /// The number of the layer, from 1 to 4.
    fn from(layer: Layer) -> u8 {
        layer as u8
    }
}

/// Why a call is refused: a case for each question that can be answered "no".
/// A case has a place where the place can be other than 0.
#[derive(Clone, Copy, Debug, PartialEq, Eq)]
pub enum Refusal {
    /// The boot table's length is no multiple of 4, or above 1,024.
    TableLength,
    /// This row of the boot table names no context, no right or no pages.
    BadRow(usize),
    /// This row of the boot table begins at an earlier page than the row before.
    RowOrder(usize),
    /// There is no such slot.
    NoSuchSlot,
    /// The slot is taken.
    SlotTaken,
    /// There are no domains, or more than eight.
    DomainCount,
    /// The one-way function does not admit the parameter's high half.
    HighHalf,
    /// The chain has at this place a password that an earlier place has too.
    Repeat(usize),
    /// The slot is free.
    SlotFree,
    /// No chain holds the password.
    NotFound,
    /// The app's own chain lacks the password.
    NotOwn,
    /// The chain has no such place, or none that may be changed.
    NoSuchPlace,
    /// It is not the app's master password.
    NotMaster,
    /// There is no such context.
    NoSuchContext,
    /// The master's domain lacks the context that was to be added at this place.
    NotHeld(usize),
    /// There is no such address; in a visit, that of the access at this place.
    NoSuchAddress(usize),
    /// The domain does not permit the access; in a visit, the one at this place.
    NotPermitted(usize),
    /// There are more than 64 accesses.
    TooManyAccesses,
    /// The buffer is shorter than the list of accesses.
    ShortBuffer,
}

impl Refusal {
    /// The number of the question, from 1 to 19. The case is the kind; the number is only what the question is called.
    pub fn number(&self) -> u8
        ensures { result ≡ (reason self.now).number }
    {
        match self {
            Refusal::TableLength => 1,
            Refusal::BadRow(_) => 2,
            Refusal::RowOrder(_) => 3,
            Refusal::NoSuchSlot => 4,
            Refusal::SlotTaken => 5,
            Refusal::DomainCount => 6,
            Refusal::HighHalf => 7,
            Refusal::Repeat(_) => 8,
            Refusal::SlotFree => 9,
            Refusal::NotFound => 10,
            Refusal::NotOwn => 11,
            Refusal::NoSuchPlace => 12,
            Refusal::NotMaster => 13,
            Refusal::NoSuchContext => 14,
            Refusal::NotHeld(_) => 15,
            Refusal::NoSuchAddress(_) => 16,
            Refusal::NotPermitted(_) => 17,
            Refusal::TooManyAccesses => 18,
            Refusal::ShortBuffer => 19,
        }
    }

    /// The layer that refuses.
    pub fn layer(&self) -> Layer
        ensures { layer_number result ≡ (reason self.now).layer }
    {
        match self {
            Refusal::TableLength | Refusal::BadRow(_) | Refusal::RowOrder(_) => Layer::Reader,
            Refusal::NoSuchSlot
            | Refusal::SlotTaken
            | Refusal::DomainCount
            | Refusal::HighHalf
            | Refusal::Repeat(_)
            | Refusal::SlotFree
            | Refusal::NotFound
            | Refusal::NotOwn
            | Refusal::NoSuchPlace
            | Refusal::NotMaster
            | Refusal::NoSuchContext
            | Refusal::NotHeld(_) => Layer::Table,
            Refusal::NoSuchAddress(_) | Refusal::NotPermitted(_) => Layer::Unit,
            Refusal::TooManyAccesses | Refusal::ShortBuffer => Layer::Turn,
        }
    }

    /// The place: a row, a place of the chain or the index of an access; else 0.
    pub fn place(&self) -> usize
        ensures { result ≡ (reason self.now).place }
    {
        match *self {
            Refusal::BadRow(place)
            | Refusal::RowOrder(place)
            | Refusal::Repeat(place)
            | Refusal::NotHeld(place)
            | Refusal::NoSuchAddress(place)
            | Refusal::NotPermitted(place) => place,
            _ => 0,
        }
    }
}

/// A refusal that hands back what the call was given.
#[derive(Clone, Copy, Debug, Drop)]
pub struct Refused<T> {
    pub refusal: Refusal,
    pub given_back: T,
}

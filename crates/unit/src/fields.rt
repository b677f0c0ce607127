ghost use Rattle.std.specs.Prelude.{◌≡◌};
ghost use Rattle.unit.specs.Model.{fields_of};

use vocabulary::access::Right;

/// The page fields: by right and page, the contexts that hold the right on the page. Bit j stands
/// for context j.
#[derive(Clone, Copy, Debug, PartialEq, Eq)]
pub struct PageFields {
    pub(crate) by_right: [[u16; 64]; 3],
}

impl PageFields {
    /// The fields under which no context holds a right.
    pub fn none() -> PageFields
        ensures { fields_of result ≡ (λ x q. 0) }
    {
        PageFields {
            by_right: [[0; 64]; 3],
        }
    }

    /// The contexts that hold the right on the page: none where there is no such page.
    pub fn field(&self, right: Right, page: usize) -> u16
        ensures { result ≡ fields_of self.now right page }
    {
        let pages = &self.by_right[right as usize];
        pages.get(page).copied().unwrap_or(0)
    }
}

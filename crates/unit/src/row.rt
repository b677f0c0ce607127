ghost use Rattle.std.specs.Prelude.{◌+◌, ◌<◌, ◌≤◌};

use crate::fields::PageFields;
use vocabulary::access::Right;

/// A row of the boot table that fits: the context, the right that it gets, the first page and how many pages.
#[derive(Clone, Copy)]
pub(crate) struct Row {
    context: u8,
    right: Right,
    pub(crate) first: usize,
    count: usize,
    ghost context_exists: { context < 16 },
    ghost pages_exist: { first + count ≤ 64 },
}

impl Row {
    ghost use Rattle.std.specs.Prelude.{◌≡◌, ℕ, find, slice_index};
    ghost use Rattle.std.specs.Option.{option_map};
    ghost use Rattle.rules.specs.Boot.{row_fits, rows_of};
    ghost use Rattle.unit.specs.Model.{fields_of};
    ghost use Rattle.unit.specs.Rows.{row_of, added_on, row_set};

    /// The row that the four bytes say, if they name a context, a right and pages.
    pub(crate) fn parse(bytes: &[u8; 4]) -> Option<Row>
        ensures { option_map row_of result ≡ find row_fits (rows_of bytes.now) }
    {
        let [context, right, first, count] = *bytes;
        let right = Right::try_from(right).ok()?;
        let first = usize::from(first);
        let count = usize::from(count);
        if context > 15 || count == 0 || first + count > 64 {
            return None;
        }
        Some(Row {
            context,
            right,
            first,
            count,
        })
    }

    /// Adds the context to one right's fields of the row's pages.
    fn add_to(&self, fields: &mut [u16; 64])
        ensures { (q : ℕ) → slice_index fields.new q ≡ added_on (row_of self.now) q (slice_index fields.old q) }
    {
        for contexts in &mut fields[self.first..self.first + self.count] {
            *contexts |= 1 << self.context;
        }
    }

    /// Adds the context to the fields of the row's right on its pages.
    pub(crate) fn set(&self, fields: &mut PageFields)
        ensures { fields_of fields.new ≡ row_set (row_of self.now) (fields_of fields.old) }
    {
        self.add_to(&mut fields.by_right[self.right as usize]);
    }
}

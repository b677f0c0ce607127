ghost use Rattle.std.specs.Prelude.{◌≡◌, None};
ghost use Rattle.table.specs.Model.{slots_of};
ghost use Rattle.unit.specs.Model.{fields_of};

use table::slots::SlotTable;
use unit::fields::PageFields;

/// The memory of a console's tables, which the executive lends at boot: the page fields and the slots.
#[derive(Drop)]
pub struct Tables {
    pub(crate) fields: PageFields,
    pub(crate) slots: SlotTable,
}

impl Tables {
    /// The tables before any boot: no rights, and all slots free.
    pub fn new() -> Tables
        ensures fields { fields_of result.fields ≡ (λ x q. 0) }
        ensures slots { slots_of result.slots ≡ (λ i. None) }
    {
        Tables {
            fields: PageFields::none(),
            slots: SlotTable::new(),
        }
    }
}

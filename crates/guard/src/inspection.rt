use table::slots::SlotTable;
use unit::fields::PageFields;

/// What the executive can look at, between turns and in one: the tables, the register, the slot whose turn it is, and
/// the memory. Looking changes nothing. It asks for no right: whoever holds a `Turn` can look.
#[derive(Drop)]
pub struct Inspection<'a, M> {
    pub fields: &'a PageFields,
    pub slots: &'a SlotTable,
    pub register: u16,
    pub running: Option<usize>,
    pub memory: &'a M,
}

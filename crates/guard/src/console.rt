ghost use Rattle.rules.specs.Console.{done, exec};
ghost use Rattle.rules.specs.Console as rules;
ghost use Rattle.rules.specs.Told.{told, told_opening};
ghost use Rattle.std.specs.Prelude.{◌≡◌, MatchResult};
ghost use Rattle.rules.specs.Boot.{boot_rule};
ghost use Rattle.rules.specs.Isolation.{Isolated};
ghost use Rattle.rules.specs.Runs.{booted};

use crate::inspection::Inspection;
use crate::tables::Tables;
use crate::turn::Turn;
use memory::Memory;
use one_way::OneWay;
use table::running::Running;
use table::slots::SlotTable;
use unit::fields::PageFields;
use unit::reader::read_table;
use vocabulary::parameter::Parameter;
use vocabulary::refusal::{Refusal, Refused};

/// The console between turns. Function, memory and fields stand beside the slots, here and in `Turn`, and in no struct of
/// their own: with one, the check covers no caller, generic in both, that takes a console, opens a turn and lets it go.
#[derive(Drop)]
pub struct Console<'a, F, M> {
    pub(crate) function: F,
    pub(crate) memory: M,
    pub(crate) fields: &'a PageFields,
    pub(crate) slots: &'a mut SlotTable,
}

impl<'a, F: OneWay, M: Memory> Console<'a, F, M> {
    ghost use Rattle.guard.specs.Model.{Obeys, between, inspected, opened, boot_answer, setting};

    /// Boots a console over the tables that the executive lends: reads the boot table, and frees all slots. A
    /// refusal gives function and memory back.
    pub fn boot(
        tables: &'a mut Tables,
        table: &[u8],
        function: F,
        memory: M,
    ) -> Result<Console<'a, F, M>, Refused<(F, M)>>
        ensures answer { told_opening result ≡ boot_answer (boot_rule table.now) }
        ensures state { MatchResult result (λ c. between F.OneWay M.Memory c ≡ record { machine = (setting F.OneWay M.Memory table.now memory).machine; console = booted (setting F.OneWay M.Memory table.now memory) }) (λ x. x.given_back ≡ (function, memory)) }
        ensures isolated { Isolated (setting F.OneWay M.Memory table.now memory) }
    {
        // By `match`, here and in `turn`: a refusal hands back by value what the other arm keeps.
        match read_table(table) {
            Ok(fields) => {
                tables.fields = fields;
                tables.slots = SlotTable::new();
                Ok(Console {
                    function,
                    memory,
                    fields: &tables.fields,
                    slots: &mut tables.slots,
                })
            }
            Err(refusal) => Err(Refused {
                refusal,
                given_back: (function, memory),
            }),
        }
    }

    /// Creates an app in a free slot.
    pub fn create(
        &mut self,
        slot: usize,
        parameter: Parameter,
        master: u64,
        domains: &[u16],
    ) -> Result<(), Refusal>
        ensures { Obeys (between F.OneWay M.Memory self.old) (exec (rules.create slot parameter master domains.now)) (told (λ _. done) result) (between F.OneWay M.Memory self.new) }
    {
        self.slots
            .create(&self.function, slot, parameter, master, domains)
    }

    /// Ends the app in a slot, and frees the slot.
    pub fn end(&mut self, slot: usize) -> Result<(), Refusal>
        ensures { Obeys (between F.OneWay M.Memory self.old) (exec (rules.end slot)) (told (λ _. done) result) (between F.OneWay M.Memory self.new) }
    {
        self.slots.end(slot)
    }

    /// Opens the turn of the app in a slot. A refusal gives the console back.
    pub fn turn(self, slot: usize) -> Result<Turn<'a, F, M>, Refused<Console<'a, F, M>>>
        ensures { Obeys (between F.OneWay M.Memory self.entry) (exec (rules.turn slot)) (told_opening result) (opened F.OneWay M.Memory result) }
    {
        match self.slots.saved(slot) {
            Ok(register) => {
                let Console {
                    function,
                    memory,
                    fields,
                    slots,
                } = self;
                Ok(Turn {
                    function,
                    memory,
                    fields,
                    app: Running::new(slots, slot),
                    register,
                })
            }
            Err(refusal) => Err(Refused {
                refusal,
                given_back: self,
            }),
        }
    }

    /// Looks at the console between turns: its register is 0, and no slot's turn is open. `Turn::inspect` says why they
    /// are two.
    pub fn inspect(&self) -> Inspection<'_, M>
        ensures { inspected F.OneWay M.Memory result ≡ between F.OneWay M.Memory self.now }
    {
        Inspection {
            fields: self.fields,
            slots: self.slots,
            register: 0,
            running: None,
            memory: &self.memory,
        }
    }
}

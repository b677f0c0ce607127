ghost use Rattle.std.specs.Prelude.{◌≡◌};

use guard::console::Console;
use guard::inspection::Inspection;
use guard::turn::Turn;
use memory::Memory;
use one_way::OneWay;

/// The console, between turns or in one.
pub enum Stage<'a, F, M> {
    Between(Console<'a, F, M>),
    During(Turn<'a, F, M>),
}

impl<'a, F: OneWay, M: Memory> Stage<'a, F, M> {
    ghost use Rattle.guard.specs.Model.{inspected};
    ghost use Rattle.replay.specs.Model.{view};

    /// Looks at the console, between turns or in one.
    pub fn inspect(&self) -> Inspection<'_, M>
        ensures { inspected F.OneWay M.Memory result ≡ view F.OneWay M.Memory self.now }
    {
        match self {
            Stage::Between(console) => console.inspect(),
            Stage::During(turn) => turn.inspect(),
        }
    }
}

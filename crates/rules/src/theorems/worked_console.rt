ghost use Rattle.std.specs.Prelude.{◌≡◌, true};
ghost use Rattle.rules.specs.Worked.{WorkedConsole};

/// The console to try answers as its lines say.
pub fn worked_console_holds() -> bool
    ensures { (result ≡ true) × WorkedConsole }
{
    true
}

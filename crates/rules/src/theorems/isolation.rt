ghost use Rattle.std.specs.Prelude.{◌≡◌, true};
ghost use Rattle.rules.specs.Isolation.{Isolation};

/// An app's pages stay its own, in every run of every console.
pub fn isolation_holds() -> bool
    ensures { (result ≡ true) × Isolation }
{
    true
}

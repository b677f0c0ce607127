ghost use Rattle.std.specs.Prelude.{◌≡◌, true};
ghost use Rattle.rules.specs.Conditions.{ConditionsCanBeMet};

/// The conditions under which an app notices nothing can be met, by runs that really differ.
pub fn conditions_can_be_met() -> bool
    ensures { (result ≡ true) × ConditionsCanBeMet }
{
    true
}

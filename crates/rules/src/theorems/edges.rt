ghost use Rattle.std.specs.Prelude.{◌≡◌, true};
ghost use Rattle.rules.specs.Edges.{Edges};

/// Each limit of the rules stands where it should.
pub fn edges_hold() -> bool
    ensures { (result ≡ true) × Edges }
{
    true
}

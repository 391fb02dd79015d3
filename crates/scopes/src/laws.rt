ghost use Rattle.std.specs.Prelude.{◌≡◌};
ghost use Rattle.scopes.specs.Examples.{Closes, Both, Once};
ghost use Rattle.scopes.specs.Places.{SeenByPlaces, InsideByPlaces, Turns, InInside};

// The marks by the places of a list, and computed examples: nothing to run, only to be proved.
// Each crate has its own such function, since a theorem stands beside what it speaks of; the 0 is promised to callers.
pub fn scopes_stand() -> u8
    ensures places { SeenByPlaces × InsideByPlaces }
    ensures words { Turns × InInside }
    ensures examples { Closes × (Both × Once) }
    ensures nothing { result ≡ 0 }
{
    0
}

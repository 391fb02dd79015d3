ghost use Rattle.std.specs.Prelude.{◌≡◌};
ghost use Rattle.patterns.specs.Laws.{AlwaysByPlaces, NeverByPlaces, Kinds, Counted, Empty, Plain};

// The plain patterns by places, what the counts are, and computed examples: nothing to run, only to be proved.
// Each crate has its own such function, since a theorem stands beside what it speaks of; the 0 is promised to callers.
pub fn counts_stand() -> u8
    ensures places { AlwaysByPlaces × NeverByPlaces }
    ensures kinds { Kinds }
    ensures examples { Counted × (Empty × Plain) }
    ensures nothing { result ≡ 0 }
{
    0
}

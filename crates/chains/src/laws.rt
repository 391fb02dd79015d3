ghost use Rattle.std.specs.Prelude.{◌≡◌};
ghost use Rattle.chains.specs.Laws.{OccursLaw, PrecedesLaw, RespondsLaw, TwiceExamples, PrecedesExamples, RespondsExamples};

// The tests that give the patterns their meaning say what is meant by places, and answer the examples.
// Each crate has its own such function, since a theorem stands beside what it speaks of; the 0 is promised to callers.
pub fn chains_stand() -> u8
    ensures occurs { OccursLaw }
    ensures precedes { PrecedesLaw }
    ensures responds { RespondsLaw }
    ensures examples { TwiceExamples × (PrecedesExamples × RespondsExamples) }
    ensures answer { result ≡ 0 }
{
    0
}

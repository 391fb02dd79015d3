ghost use Rattle.std.specs.Prelude.{◌≡◌};
ghost use Rattle.formulas.specs.Laws.{Agreement, TestsDecide, Examples};

// The named patterns accept exactly the lists that satisfy their formulas: nothing to run, only to be proved.
// Each crate has its own such function, since a theorem stands beside what it speaks of; the 0 is promised to callers.
#[tactic(auto, using(crate::proofs::Agreeing::agreement, crate::proofs::Deciding::tests_decide))]
pub fn formulas_stand() -> u8
    ensures agreement { Agreement }
    ensures tests { TestsDecide }
    ensures examples { Examples }
    ensures nothing { result ≡ 0 }
{
    0
}

// Worked examples of rules and records, computed by the definitions that the contracts cite.

#![tactic(auto)]

ghost use Rattle.std.specs.Prelude.{◌≡◌};
ghost use Rattle.examples.specs.Worked.{Worked};

// The examples come out as listed: nothing to run, only to be proved.
// Each crate has its own such function, since a theorem stands beside what it speaks of; the 0 is promised to callers.
pub fn examples_stand() -> u8
    ensures examples { Worked }
    ensures nothing { result ≡ 0 }
{
    0
}

ghost use Rattle.std.specs.Prelude.{true};
ghost use Rattle.rules.specs.Settings.{IsFreshScope};
ghost use Rattle.rules.specs.declared.mark.Mark.TheVariants.{In};

use rules::mark::Mark;
use rules::scope::Scope;

// The whole list: every word is in, also where the list just ends.
#[derive(Clone, Copy)]
pub struct Globally;

impl Globally {
    pub fn new() -> Globally
        ensures { IsFreshScope ⟦<Globally as Scope>⟧ result (λ l w. In) true }
    {
        Globally
    }
}

impl Scope for Globally {
    ghost marks = { λ s l w. In };

    ghost answers = { λ s l. true };

    ghost rest_marks = { λ s l w. In };

    ghost rest_answers = { λ s l. true };

    fn start(&mut self) {}

    fn mark(&mut self, _word: u16) -> Mark {
        Mark::In
    }

    fn answer(&self) -> bool {
        true
    }
}

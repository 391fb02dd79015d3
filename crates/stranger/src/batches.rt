pub mod marking;

ghost use Rattle.rules.specs.Settings.{MarksAfresh};
ghost use Rattle.stranger.specs.Batched.{batch_mark, batch_says};

use rules::scope::Scope;

// Batches, which begin anew at a word with condition 0 and end with a word that has condition 1.
#[derive(Clone, Copy)]
pub struct Batches {
    running: bool,
}

impl Batches {
    pub fn new() -> Batches
        ensures { MarksAfresh ⟦<Batches as Scope>⟧ result batch_mark batch_says }
    {
        Batches { running: false }
    }
}

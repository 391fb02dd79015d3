ghost use Rattle.stranger.specs.Batched.{runs_after, mark_when, batch_mark, batch_says};

use crate::batches::Batches;
use rules::mark::Mark;
use rules::scope::Scope;

impl Scope for Batches {
    ghost marks = { λ _. batch_mark };

    ghost answers = { λ _. batch_says };

    ghost rest_marks = { λ s l. mark_when (runs_after s.running l) };

    ghost rest_answers = { λ s. runs_after s.running };

    fn start(&mut self) {
        self.running = false;
    }

    fn mark(&mut self, word: u16) -> Mark {
        if word % 2 == 1 {
            self.running = true;
            return Mark::Anew;
        }
        if !self.running {
            return Mark::Out;
        }
        if word / 2 % 2 == 1 {
            self.running = false;
            return Mark::Last;
        }
        Mark::In
    }

    fn answer(&self) -> bool {
        self.running
    }
}

ghost use Rattle.std.specs.Prelude.{◌≡◌, ℕ, Bool, List, [], ◌∷◌};
ghost use Rattle.layer.specs.Blocks.{accepts_over};
ghost use Rattle.layer.specs.Stretches.{goes_on, open_at, closed_at, judged_from};

use crate::over::{Over, Standing};
use rules::mark::Mark;
use rules::pattern::Pattern;
use rules::scope::Scope;

impl<S: Scope, P: Pattern> Over<S, P> {
    // Reads a word of a stretch, which begins with it if none is open.
    fn read_within(&mut self, word: u16)
        ensures kept { (self.new.scope ≡ self.old.scope) × (P.Pattern.meaning self.new.below ≡ P.Pattern.meaning self.old.below) }
        ensures inside { self.new.standing ≡ Standing.Inside }
        ensures step { (l : List ℕ) → P.Pattern.rest self.new.below l ≡ goes_on (open_at self.old.standing (P.Pattern.rest self.old.below)) (P.Pattern.meaning self.old.below) (word ∷ l) }
    {
        if self.standing != Standing::Inside {
            self.below.start();
            self.standing = Standing::Inside;
        }
        self.below.read(word);
    }

    // Closes the stretch that is open, if one is.
    fn close(&mut self)
        ensures { self.new ≡ record self.old { standing = closed_at self.old.standing (P.Pattern.rest self.old.below []) } }
    {
        if self.standing == Standing::Inside {
            self.standing = if self.below.verdict() {
                Standing::Outside
            } else {
                Standing::Rejected
            };
        }
    }
}

impl<S: Scope, P: Pattern> Pattern for Over<S, P> {
    ghost meaning = { λ x. accepts_over (S.Scope.marks x.scope) (S.Scope.answers x.scope) (P.Pattern.meaning x.below) };

    ghost rest = { λ x. judged_from x.standing (S.Scope.rest_marks x.scope) (S.Scope.rest_answers x.scope) (P.Pattern.meaning x.below) (P.Pattern.rest x.below) };

    #[tactic(auto, using(crate::proofs::Laws::started))]
    fn start(&mut self) {
        self.scope.start();
        self.below.start();
        self.standing = Standing::Outside;
    }

    #[tactic(auto, using(crate::proofs::Reading::read_out, crate::proofs::Reading::read_in, crate::proofs::Reading::read_last, crate::proofs::Reading::read_anew))]
    fn read(&mut self, word: u16) {
        if self.standing == Standing::Rejected {
            return;
        }
        match self.scope.mark(word) {
            Mark::Out => self.close(),
            Mark::In => self.read_within(word),
            Mark::Last => {
                self.read_within(word);
                self.close();
            }
            Mark::Anew => {
                self.standing = Standing::Outside;
                self.read_within(word);
            }
        }
    }

    fn verdict(&self) -> bool {
        match self.standing {
            Standing::Outside => true,
            Standing::Inside => !self.scope.answer() || self.below.verdict(),
            Standing::Rejected => false,
        }
    }
}

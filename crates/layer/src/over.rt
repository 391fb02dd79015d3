pub mod reading;

ghost use Rattle.std.specs.Prelude.{◌≡◌};
ghost use Rattle.layer.specs.Blocks.{accepts_over};

use rules::pattern::Pattern;
use rules::scope::Scope;

// How an over stands after the words so far.
#[derive(Clone, Copy, PartialEq, Eq)]
enum Standing {
    // no stretch is open
    Outside,
    // a stretch is open, and the pattern below has read it so far
    Inside,
    // a stretch was judged and rejected, so nothing that comes is accepted
    Rejected,
}

// A scope over a pattern: it accepts a list of words when the pattern below accepts, each on its own, all
// the stretches that the scope's marks cut out of the list and that are judged.
#[derive(Clone, Copy, Drop)]
pub struct Over<S, P> {
    scope: S,
    below: P,
    standing: Standing,
}

impl<S: Scope, P: Pattern> Over<S, P> {
    // Clauses give `accepts_over` three functions and not two types, since the laws use it of other functions too.
    // Meaning and rest have a clause each, by which proofs cite them apart.
    pub fn new(scope: S, below: P) -> Over<S, P>
        ensures meaning { ⟦<Over<S, P> as Pattern>⟧.meaning result ≡ accepts_over (S.Scope.marks scope) (S.Scope.answers scope) (P.Pattern.meaning below) }
        ensures fresh { ⟦<Over<S, P> as Pattern>⟧.rest result ≡ accepts_over (S.Scope.marks scope) (S.Scope.answers scope) (P.Pattern.meaning below) }
    {
        let mut over = Over {
            scope,
            below,
            standing: Standing::Outside,
        };
        over.start();
        over
    }
}

ghost use Rattle.std.specs.Prelude.{◌≡◌, []};
ghost use Rattle.layer.specs.Blocks.{accepts_over};
ghost use Rattle.watch.specs.After.{After};

use crate::watch::Watch;
use layer::over::Over;
use rules::encoder::Encoder;
use rules::pattern::Pattern;
use rules::scope::Scope;

impl<E: Encoder, S: Scope, P: Pattern> Watch<E, Over<S, P>> {
    // A watch of the scope over the pattern, both started, with no sample accepted.
    pub fn new(encoder: E, scope: S, pattern: P) -> Watch<E, Over<S, P>>
        ensures after { After E.Encoder ⟦<Over<S, P> as Pattern>⟧ result [] }
        ensures rule { ⟦<Over<S, P> as Pattern>⟧.meaning result.rule ≡ accepts_over (S.Scope.marks scope) (S.Scope.answers scope) (P.Pattern.meaning pattern) }
        ensures encoder { result.encoder ≡ encoder }
    {
        Watch {
            encoder,
            rule: Over::new(scope, pattern),
            count: 0,
        }
    }
}

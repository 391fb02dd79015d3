ghost use Rattle.std.specs.Prelude.{◌≡◌, Decides};
ghost use Rattle.layer.specs.Judged.{AcceptsEach};

use crate::over::Over;
use rules::pattern::Pattern;
use rules::scope::Scope;

// Whether a pattern accepts these words, read from its start.
pub fn judge<P: Pattern>(pattern: &mut P, words: &[u16]) -> bool
    ensures value { result ≡ P.Pattern.meaning pattern.old words.now }
    ensures kept { P.Pattern.meaning pattern.new ≡ P.Pattern.meaning pattern.old }
{
    pattern.start();
    for &word in words {
        pattern.read(word);
    }
    pattern.verdict()
}

// The layer law: a scope over a pattern accepts exactly the lists of which the pattern accepts, each on its
// own, all judged stretches.
pub fn judge_stretches<S: Scope + Drop, P: Pattern + Drop>(
    scope: S,
    below: P,
    words: &[u16],
) -> bool
    ensures { Decides result (AcceptsEach (S.Scope.marks scope) (S.Scope.answers scope) (P.Pattern.meaning below) words.now) }
{
    let mut layer = Over::new(scope, below);
    judge(&mut layer, words)
}

ghost use Rattle.std.specs.Prelude.{◌≡◌, IfOk, MatchResult, Ok, Err, Decides};
ghost use Rattle.formulas.specs.Formulas.{Satisfies};
ghost use Rattle.formulas.specs.Named.{formula_of, judged};

use crate::named::NamedPattern;
use kinds::setup;
use layer::judging::judge;
use patterns::always::Always;
use patterns::eventually::Eventually;
use patterns::form::Form;
use patterns::never::Never;
use rules::pattern::Pattern;
use rules::refusal::SettingRefusal;

// Whether a named pattern accepts these words: the pattern is set up, and reads them from its start. It accepts
// exactly the lists that satisfy its formula.
pub fn judge_named(named: NamedPattern, words: &[u16]) -> Result<bool, SettingRefusal>
    ensures value { result ≡ judged named words.now }
    ensures formula { IfOk result (λ b. Decides b (Satisfies (formula_of named) words.now)) }
{
    match named {
        NamedPattern::Always { p } => judge_by::<Always>(setup::throughout(p), words),
        NamedPattern::Never { p } => judge_by::<Never>(setup::throughout(p), words),
        NamedPattern::Eventually { p } => {
            judge_by::<Eventually>(setup::counting(Form::AtLeast, p, 1), words)
        }
        NamedPattern::AtMostTwice { p } => {
            judge_by::<Eventually>(setup::counting(Form::AtMost, p, 2), words)
        }
        NamedPattern::Precedes { p, s } => judge_by(setup::precedes(&[p], &[s]), words),
        NamedPattern::PairPrecedes { p1, p2, s } => {
            judge_by(setup::precedes(&[p1, p2], &[s]), words)
        }
        NamedPattern::PrecedesPair { p, s1, s2 } => {
            judge_by(setup::precedes(&[p], &[s1, s2]), words)
        }
        NamedPattern::Responds { p, s } => judge_by(setup::responds(&[p], &[s]), words),
        NamedPattern::PairResponds { p, s1, s2 } => {
            judge_by(setup::responds(&[p], &[s1, s2]), words)
        }
        NamedPattern::RespondsToPair { p1, p2, s } => {
            judge_by(setup::responds(&[p1, p2], &[s]), words)
        }
    }
}

// What a pattern says of the words, if its settings were taken.
fn judge_by<P: Pattern + Drop>(
    set_up: Result<P, SettingRefusal>,
    words: &[u16],
) -> Result<bool, SettingRefusal>
    ensures { MatchResult set_up (λ p. result ≡ Ok (P.Pattern.meaning p words.now)) (λ e. result ≡ Err e) }
{
    Ok(judge(&mut set_up?, words))
}

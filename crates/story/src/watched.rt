ghost use Rattle.std.specs.Prelude.{◌≡◌, false, [], IfOk};
ghost use Rattle.layer.specs.Blocks.{accepts_over};
ghost use Rattle.patterns.specs.Places.{never as never_by};
ghost use Rattle.scopes.specs.Marks.{between_mark};
ghost use Rattle.runs.specs.Runs.{answers as answers_by};
ghost use Rattle.story.specs.Contacted.{story_codes};

use crate::rule;
use crate::telling::tell_answer;
use crate::trouble::Trouble;
use kinds::setup;
use patterns::never::Never;
use runs::{Answer, Call, run};
use scopes::between::Between;
use std::alloc::Global;

// The break, sample by sample: the dryer is driven before the tail is threaded. Then a record in which the
// dryer waits, one that is cut short, and one in which a contact that there is not is closed.
static CALLS: [Call<'static>; 13] = [
    Call::Feed(&[0]),
    Call::Feed(&[2]),
    Call::Feed(&[1]),
    Call::Verdict,
    Call::Feed(&[4]),
    Call::Verdict,
    Call::NewRecord,
    Call::Play(&[0, 0, 0, 4, 0, 2, 0, 4]),
    Call::Verdict,
    Call::Play(&[0, 0, 0, 3, 0, 2]),
    Call::Play(&[0, 0, 0, 3, 2, 16, 4]),
    Call::Feed(&[1, 1]),
    Call::Verdict,
];

// The answers under never D between B and T.
// The rule is spelled out: it is the one place here that speaks of it.
fn answers(heap: Global, calls: &[Call<'_>]) -> Result<Vec<Answer>, Trouble>
    ensures { IfOk result (λ v. v.items ≡ answers_by story_codes 1 (accepts_over (between_mark 1 2) (λ l. false) (never_by 0)) [] calls.now) }
{
    let contacts = rule::contacts()?;
    let between: Between = setup::span(rule::BREAK, rule::THREADED)?;
    let never: Never = setup::throughout(rule::DRIVEN)?;
    Ok(run(heap, contacts, between, never, calls)?)
}

pub fn tell(rt: &HostRuntime) -> Result<(), Trouble> {
    println!(rt; "Never D between B and T, by a watch")?;
    let answers = answers(rt.alloc(), &CALLS)?;
    // side by side, since `run` gives an answer for each call, in the order of the calls
    for (call, answer) in CALLS.iter().zip(answers.iter()) {
        tell_answer(rt, *call, *answer)?;
    }
    Ok(())
}

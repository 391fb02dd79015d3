// The answers of a watch to a list of calls.

#![tactic(auto)]

ghost use Rattle.std.specs.Prelude.{◌≡◌, List, [], ◌∷◌, IfOk, Decides};
ghost use Rattle.layer.specs.Blocks.{accepts_over};
ghost use Rattle.layer.specs.Judged.{AcceptsEach};
ghost use Rattle.watch.specs.Accepted.{Samples, words};
ghost use Rattle.watch.specs.After.{OfEach, Answers, Leads, Keeps};
ghost use Rattle.runs.specs.Runs.{answer_to, list_after, answers};

use layer::over::Over;
use rules::encoder::Encoder;
use rules::pattern::Pattern;
use rules::scope::Scope;
use std::alloc::{AllocError, Global};
use watch::fault::{PlayFault, WatchFault};
use watch::watch::Watch;

// A call of a watch, with its bytes: data and no closure, since the run law is about any list of them.
#[derive(Clone, Copy)]
pub enum Call<'a> {
    Feed(&'a [u8]),
    Play(&'a [u8]),
    NewRecord,
    Verdict,
}

// What a call answers. The crate `second` has answers of its own, so that a slip here is not repeated there.
#[derive(Clone, Copy, PartialEq, Debug)]
pub enum Answer {
    Fed(Result<u32, WatchFault>),
    Played(Result<u32, PlayFault>),
    Begun,
    Judged(bool),
}

// Makes one call. Clauses name `codes`, `size` and `meaning` one by one, as the definitions take them.
fn answer_one<E: Encoder, R: Pattern>(watch: &mut Watch<E, R>, call: Call<'_>) -> Answer
    ensures answer { Answers E.Encoder R.Pattern watch.old (λ list. answer_to (E.Encoder.codes watch.old.encoder) (E.Encoder.size watch.old.encoder) (R.Pattern.meaning watch.old.rule) list call.entry) result }
    ensures after { Leads E.Encoder R.Pattern watch.old (λ list. list_after (E.Encoder.codes watch.old.encoder) (E.Encoder.size watch.old.encoder) list call.entry) watch.new }
    ensures kept { Keeps R.Pattern watch.old watch.new }
{
    match call {
        Call::Feed(sample) => Answer::Fed(watch.feed(sample)),
        Call::Play(record) => Answer::Played(watch.play(record)),
        Call::NewRecord => {
            watch.new_record();
            Answer::Begun
        }
        Call::Verdict => Answer::Judged(watch.verdict()),
    }
}

// Makes the calls in their order. A loop, since each call changes the watch that the next is made on.
fn answer_all<E: Encoder, R: Pattern>(
    heap: Global,
    watch: &mut Watch<E, R>,
    calls: &[Call<'_>],
) -> Result<Vec<Answer>, AllocError>
    ensures { OfEach E.Encoder R.Pattern watch.old (λ list. IfOk result (λ v. v.items ≡ answers (E.Encoder.codes watch.old.encoder) (E.Encoder.size watch.old.encoder) (R.Pattern.meaning watch.old.rule) list calls.now)) }
{
    let mut given = Vec::new(heap);
    for &call in calls {
        given.push(answer_one(watch, call))?;
    }
    Ok(given)
}

// The run law: the answers of a newly made watch to any list of calls are those that the list of accepted
// samples determines; and a verdict is yes if and only if each judged stretch of that list's words is
// accepted by the pattern.
pub fn run<E: Encoder + Drop, S: Scope + Drop, P: Pattern + Drop>(
    heap: Global,
    encoder: E,
    scope: S,
    pattern: P,
    calls: &[Call<'_>],
) -> Result<Vec<Answer>, AllocError>
    ensures answers { IfOk result (λ v. v.items ≡ answers (E.Encoder.codes encoder) (E.Encoder.size encoder) (accepts_over (S.Scope.marks scope) (S.Scope.answers scope) (P.Pattern.meaning pattern)) [] calls.now) }
    ensures verdicts { (list : Samples) → Decides (accepts_over (S.Scope.marks scope) (S.Scope.answers scope) (P.Pattern.meaning pattern) (words (E.Encoder.codes encoder) list)) (AcceptsEach (S.Scope.marks scope) (S.Scope.answers scope) (P.Pattern.meaning pattern) (words (E.Encoder.codes encoder) list)) }
{
    let mut watch = Watch::new(encoder, scope, pattern);
    answer_all(heap, &mut watch, calls)
}

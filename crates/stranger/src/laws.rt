ghost use Rattle.std.specs.Prelude.{◌≡◌, [], IfOk, Decides};
ghost use Rattle.layer.specs.Blocks.{accepts_over};
ghost use Rattle.layer.specs.Judged.{AcceptsEach};
ghost use Rattle.watch.specs.Accepted.{Samples, words as words_of};
ghost use Rattle.runs.specs.Runs.{answers};
ghost use Rattle.stranger.specs.Gauges.{gauge_codes};
ghost use Rattle.stranger.specs.Batched.{batch_mark, batch_says};
ghost use Rattle.stranger.specs.Paired.{paired};

use crate::batches::Batches;
use crate::gauge::Gauge;
use crate::pairs::Pairs;
use layer::judging::judge_stretches;
use layer::over::Over;
use runs::{Answer, Call, run};
use std::alloc::{AllocError, Global};

// The run law at the gauge, the batches and the pairs: the answers to any list of calls, and when a verdict is yes.
// The rule is spelled out in each clause, so that a clause is read against the laws with no name between.
pub fn run_gauge(heap: Global, calls: &[Call<'_>]) -> Result<Vec<Answer>, AllocError>
    ensures answers { IfOk result (λ v. v.items ≡ answers gauge_codes 2 (accepts_over batch_mark batch_says paired) [] calls.now) }
    ensures verdicts { (list : Samples) → Decides (accepts_over batch_mark batch_says paired (words_of gauge_codes list)) (AcceptsEach batch_mark batch_says paired (words_of gauge_codes list)) }
{
    run(heap, Gauge::new(), Batches::new(), Pairs::new(), calls)
}

// The layer law two deep: yes exactly when in every batch each batch within it has its words in pairs.
pub fn judge_batches_of_batches(words: &[u16]) -> bool
    ensures { Decides result (AcceptsEach batch_mark batch_says (accepts_over batch_mark batch_says paired) words.now) }
{
    let inner = Over::new(Batches::new(), Pairs::new());
    judge_stretches(Batches::new(), inner, words)
}

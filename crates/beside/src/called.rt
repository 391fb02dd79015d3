// Runs: a watch over one to three scopes, with calls of all kinds, some of them with damaged bytes.
use crate::coded;
use crate::dice::Dice;
use crate::library::{AnyScope, encoder_of, pattern_of, scope_of};
use crate::reply::Reply;
use crate::supply::{Drawn, Supply};
use crate::tally::{Family, Tally};
use kinds::choice::Choice;
use layer::over::Over;
use rules::pattern::Pattern;
use runs::{Answer, Call, run};
use second::coding::{Coding, CodingKind, Setting};
use second::pattern::PatternText;
use second::scope::ScopeText;
use second::text::Text;
use second::watch::WatchText;
use std::alloc::{AllocError, Global};

// A call of a watch, with its bytes.
// It owns the bytes that a `Call` borrows.
#[derive(Debug, Drop)]
pub enum Step {
    Feed(Vec<u8>),
    Play(Vec<u8>),
    NewRecord,
    Verdict,
}

// The kinds alone, since the dice choose a kind before its values are drawn.
#[derive(Clone, Copy)]
enum StepKind {
    Feed,
    Play,
    NewRecord,
    Verdict,
}

// The rule of a case: its scopes, the outermost first, and its pattern.
// Three fields and no list: each scope makes another type of what is below it.
#[derive(Clone, Copy, Debug)]
pub struct Rule<'a> {
    pub outer: ScopeText<'a>,
    pub middle: Option<ScopeText<'a>>,
    pub inner: Option<ScopeText<'a>>,
    pub pattern: PatternText<'a>,
}

// An encoder with its settings, and the calls of a watch.
#[derive(Debug, Drop)]
pub struct Story {
    pub kind: CodingKind,
    pub settings: Vec<Setting>,
    pub steps: Vec<Step>,
}

impl<'a> From<&'a Step> for Call<'a> {
    fn from(step: &'a Step) -> Call<'a> {
        match step {
            Step::Feed(sample) => Call::Feed(sample),
            Step::Play(record) => Call::Play(record),
            Step::NewRecord => Call::NewRecord,
            Step::Verdict => Call::Verdict,
        }
    }
}

impl Step {
    // What the watch of the second implementation replies.
    fn heard(
        &self,
        watch: &mut WatchText,
        scopes: &[ScopeText<'_>],
        pattern: &PatternText<'_>,
    ) -> Result<Reply, AllocError> {
        match self {
            Step::Feed(sample) => Reply::heard(watch.feed(sample).map(Reply::Accepted)),
            Step::Play(record) => Reply::heard(watch.play(record).map(Reply::Accepted)),
            Step::NewRecord => {
                watch.new_record();
                Ok(Reply::Done)
            }
            Step::Verdict => Ok(Reply::Judged(watch.try_verdict(scopes, pattern)?)),
        }
    }

    fn size(&self) -> usize {
        match self {
            Step::Feed(bytes) | Step::Play(bytes) => bytes.len(),
            Step::NewRecord | Step::Verdict => 0,
        }
    }

    fn any(dice: &mut Dice, kind: CodingKind) -> Result<Step, AllocError> {
        let choices = [
            (1, StepKind::NewRecord),
            (4, StepKind::Verdict),
            (5, StepKind::Play),
        ];
        match dice.choose(20, &choices, StepKind::Feed) {
            StepKind::NewRecord => Ok(Step::NewRecord),
            StepKind::Verdict => Ok(Step::Verdict),
            StepKind::Play => Ok(Step::Play(record(dice, kind)?)),
            StepKind::Feed => Ok(Step::Feed(sample(dice, kind)?)),
        }
    }
}

// A record of some samples; its count or its bytes are wrong now and then.
fn record(dice: &mut Dice, kind: CodingKind) -> Result<Vec<u8>, AllocError> {
    let count = dice.byte_below(6);
    let wrong = dice.one_in(12);
    let heap = dice.heap;
    let mut record: Vec<u8> = (0..3).map(|_| u8::from(dice.one_in(60))).collect(heap)?;
    record.push(if wrong { dice.byte_below(8) } else { count })?;
    // a loop: a sample is appended as its bytes, one or more
    for _ in 0..count {
        coded::push_sample(dice, kind, &mut record)?;
    }
    coded::cut_or_add(dice, &mut record)?;
    Ok(record)
}

// A sample, now and then with a byte too many.
fn sample(dice: &mut Dice, kind: CodingKind) -> Result<Vec<u8>, AllocError> {
    let mut sample = Vec::new(dice.heap);
    coded::push_sample(dice, kind, &mut sample)?;
    if dice.one_in(15) {
        sample.push(dice.byte())?;
    }
    Ok(sample)
}

// What the library answered, as a reply.
impl From<Answer> for Reply {
    fn from(answer: Answer) -> Reply {
        // `as`: a usize holds every u32, and the library has no `From` for it
        match answer {
            Answer::Fed(answer) => Reply::of(answer.map(|count| Reply::Accepted(count as usize))),
            Answer::Played(answer) => Reply::of(answer.map(|count| Reply::Accepted(
                count as usize,
            ))),
            Answer::Begun => Reply::Done,
            Answer::Judged(kept) => Reply::Judged(kept),
        }
    }
}

// A pattern under a scope, or alone where there is none.
fn under<'a, P: Pattern>(
    scope: Option<ScopeText<'a>>,
    below: P,
) -> Choice<P, Over<AnyScope<'a>, P>> {
    match scope {
        None => Choice::First(below),
        Some(text) => Choice::Second(Over::new(scope_of(text), below)),
    }
}

impl<'a> Rule<'a> {
    fn any(dice: &mut Dice, supply: &'a Supply) -> Rule<'a> {
        let depth = dice.below(3);
        let kinds = [
            ScopeText::kind(dice),
            ScopeText::kind(dice),
            ScopeText::kind(dice),
        ];
        let [outer, middle, inner] = kinds.map(|kind| ScopeText::drawn(dice, supply, kind));
        let pattern = PatternText::kind(dice);
        Rule {
            outer,
            middle: if depth > 0 { Some(middle) } else { None },
            inner: if depth > 1 { Some(inner) } else { None },
            pattern: PatternText::drawn(dice, supply, pattern),
        }
    }

    // The scopes as they are held once set, the outermost first.
    fn held_scopes(&self, heap: Global) -> Result<Vec<ScopeText<'a>>, AllocError> {
        [Some(self.outer), self.middle, self.inner]
            .into_iter()
            .flatten()
            .map(|scope| scope.held())
            .collect(heap)
    }
}

impl Story {
    fn new(dice: &mut Dice, steps: usize) -> Result<Story, AllocError> {
        let kind = coded::kind(dice);
        let settings = coded::settings(dice, kind)?;
        let heap = dice.heap;
        let mut steps: Vec<Step> = (0..steps).map(|_| Step::any(dice, kind)).try_collect(heap)?;
        steps.push(Step::Verdict)?;
        Ok(Story {
            kind,
            settings,
            steps,
        })
    }

    // What the library replies.
    pub fn ours(&self, heap: Global, rule: Rule<'_>) -> Result<Vec<Reply>, AllocError> {
        let calls: Vec<Call<'_>> = self.steps.iter().map(Call::from).collect(heap)?;
        let encoder = encoder_of(self.kind, &self.settings);
        let inner = under(rule.inner, pattern_of(rule.pattern));
        let middle = under(rule.middle, inner);
        let answers = run(heap, encoder, scope_of(rule.outer), middle, &calls)?;
        answers
            .iter()
            .map(|answer| Reply::from(*answer))
            .collect(heap)
    }

    pub fn theirs(&self, heap: Global, rule: Rule<'_>) -> Result<Vec<Reply>, AllocError> {
        let mut coding = Coding::new(heap, self.kind);
        // a loop: each setting changes the coding, and a refused one is passed over
        for setting in self.settings.iter() {
            if let Err(stop) = coding.set(*setting) {
                stop.refusal()?;
            }
        }
        let mut watch = WatchText::new(heap, coding);
        let scopes = rule.held_scopes(heap)?;
        let pattern = rule.pattern.held();
        self.steps
            .iter()
            .map(|step| step.heard(&mut watch, &scopes, &pattern))
            .try_collect(heap)
    }

    fn size(&self) -> usize {
        self.steps.iter().fold(
            self.settings.len(),
            |size, step| size.saturating_add(step.size()),
        )
    }
}

// Puts a story to both.
pub fn compare(
    heap: Global,
    story: &Story,
    rule: Rule<'_>,
    tally: &mut Tally,
) -> Result<(), AllocError> {
    let ours = story.ours(heap, rule)?;
    let theirs = story.theirs(heap, rule)?;
    let case = format_args!("{story:?} under {rule:?}");
    tally.hold(story.size(), &ours, &theirs, case)
}

// One run of so many steps, made with both.
pub fn compare_run(family: &mut Family, steps: usize) -> Result<(), AllocError> {
    let supply = Supply::new(&mut family.dice)?;
    let rule = Rule::any(&mut family.dice, &supply);
    let story = Story::new(&mut family.dice, steps)?;
    compare(family.dice.heap, &story, rule, &mut family.tally)
}

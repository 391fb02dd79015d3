// Worked examples with their known outcomes, put to both.
use crate::called::{Rule, Step, Story};
use crate::reply::Reply;
use crate::tally::Tally;
use second::coding::{CodingKind, Setting};
use second::pattern::{Form, PatternText, Times};
use second::scope::ScopeText;
use std::alloc::{AllocError, Global};

// Conditions have only numbers in the library: each program names its own.

// D, the dryer is driven
const D: u8 = 0;
// B, the sheet breaks
const B: u8 = 1;
// T, the tail is threaded
const T: u8 = 2;

const AT_LEAST_ONE: Times = Times {
    form: Form::AtLeast,
    number: 1,
};

const AT_MOST_TWO: Times = Times {
    form: Form::AtMost,
    number: 2,
};

// A rule, a record of words, and whether the record keeps the rule.
// No `Rule` inside: no example has a scope in the middle, and each would have to say so.
struct Example {
    outer: ScopeText<'static>,
    inner: Option<ScopeText<'static>>,
    pattern: PatternText<'static>,
    words: &'static [u8],
    kept: bool,
}

static EXAMPLES: [Example; 8] = [
    Example {
        outer: ScopeText::Before(T),
        inner: None,
        pattern: PatternText::Eventually(AT_LEAST_ONE, D),
        words: &[0, 0],
        kept: true,
    },
    Example {
        outer: ScopeText::Globally,
        inner: None,
        pattern: PatternText::Eventually(AT_MOST_TWO, D),
        words: &[1, 1, 0, 1],
        kept: true,
    },
    Example {
        outer: ScopeText::Globally,
        inner: None,
        pattern: PatternText::Precisely(AT_MOST_TWO, D),
        words: &[1, 1, 0, 1],
        kept: false,
    },
    Example {
        outer: ScopeText::Globally,
        inner: None,
        pattern: PatternText::Precedes(&[D], &[B, T]),
        words: &[3, 4],
        kept: true,
    },
    Example {
        outer: ScopeText::Globally,
        inner: None,
        pattern: PatternText::Precedes(&[D], &[B, T]),
        words: &[2, 0],
        kept: true,
    },
    Example {
        outer: ScopeText::Between(B, T),
        inner: Some(ScopeText::Before(D)),
        pattern: PatternText::Always(B),
        words: &[2, 2, 1, 0, 4],
        kept: true,
    },
    Example {
        outer: ScopeText::Between(B, T),
        inner: Some(ScopeText::Before(D)),
        pattern: PatternText::Always(B),
        words: &[2, 0, 1, 4],
        kept: false,
    },
    Example {
        outer: ScopeText::Between(B, T),
        inner: Some(ScopeText::Before(D)),
        pattern: PatternText::Always(B),
        words: &[2, 0, 4],
        kept: true,
    },
];

// A letter record of these words, played.
fn story(heap: Global, words: &[u8]) -> Result<Story, AllocError> {
    let count = u32::try_from(words.len()).unwrap_or(u32::MAX);
    let mut record = Vec::from_slice(heap, &count.to_be_bytes())?;
    record.extend_from_slice(words)?;
    Ok(Story {
        kind: CodingKind::Letters,
        settings: vec![in heap; Setting::Width(3)]?,
        steps: vec![in heap; Step::Play(record), Step::Verdict]?,
    })
}

// Holds the replies of each side to what is known.
fn compare(heap: Global, example: &Example, tally: &mut Tally) -> Result<(), AllocError> {
    let story = story(heap, example.words)?;
    let rule = Rule {
        outer: example.outer,
        middle: None,
        inner: example.inner,
        pattern: example.pattern,
    };
    let known = [
        Reply::Accepted(example.words.len()),
        Reply::Judged(example.kept),
    ];
    for replies in [story.ours(heap, rule)?, story.theirs(heap, rule)?] {
        tally.hold(0, &replies, &known, "a worked example")?;
    }
    Ok(())
}

pub fn examples(heap: Global) -> Result<Tally, AllocError> {
    let mut tally = Tally::new(heap);
    for example in EXAMPLES.iter() {
        compare(heap, example, &mut tally)?;
    }
    Ok(tally)
}

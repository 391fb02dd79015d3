// A watch that comes to its limit: records that are played up to it and past it.
use crate::called::{Rule, Step, Story, compare};
use crate::tally::Tally;
use second::coding::{Coding, CodingKind};
use second::pattern::PatternText;
use second::scope::ScopeText;
use std::alloc::{AllocError, Global};

// Written here once more, so that a wrong limit on either side shows.
const MOST_SAMPLES: usize = 1_000_000;

// A record of so many samples of zeros, played.
fn played(heap: Global, count: usize, size: usize) -> Result<Step, AllocError> {
    let number = u32::try_from(count).unwrap_or(u32::MAX);
    let mut record = Vec::from_slice(heap, &number.to_be_bytes())?;
    record.resize(count.saturating_mul(size).saturating_add(4), 0)?;
    Ok(Step::Play(record))
}

// A sample of zeros, fed.
fn fed(heap: Global, size: usize) -> Result<Step, AllocError> {
    Ok(Step::Feed(vec![in heap; 0; size]?))
}

// Fills a watch all but a few samples, goes on past its limit by feeding and by playing, and begins again.
fn steps(heap: Global, size: usize, left: usize) -> Result<Vec<Step>, AllocError> {
    let wrong_size = Step::Feed(vec![in heap; 0, 0]?);
    let cut = Step::Play(vec![in heap; 0, 0, 0]?);
    let steps = vec![in heap;
        played(heap, MOST_SAMPLES.saturating_sub(left), size)?,
        fed(heap, size)?,
        fed(heap, size)?,
        played(heap, 2, size)?,
        wrong_size,
        played(heap, 0, size)?,
        cut,
        Step::NewRecord,
        fed(heap, size)?,
        Step::Verdict,
    ]?;
    Ok(steps)
}

fn story(heap: Global, kind: CodingKind, left: usize) -> Result<Story, AllocError> {
    let size = Coding::new(heap, kind).size();
    Ok(Story {
        kind,
        settings: Vec::new(heap),
        steps: steps(heap, size, left)?,
    })
}

pub fn watches(heap: Global) -> Result<Tally, AllocError> {
    let mut tally = Tally::new(heap);
    let rule = Rule {
        outer: ScopeText::Globally,
        middle: None,
        inner: None,
        pattern: PatternText::Never(0),
    };
    for kind in [
        CodingKind::Contacts,
        CodingKind::Events,
        CodingKind::Letters,
    ] {
        for left in 0..5 {
            compare(heap, &story(heap, kind, left)?, rule, &mut tally)?;
        }
    }
    Ok(tally)
}

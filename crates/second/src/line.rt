use crate::coding::{Coding, CodingKind, Setting};
use crate::counted::counted;
use crate::pattern::PatternText;
use crate::refusal::{Stop, Why};
use crate::scope::ScopeText;
use crate::table::Pair;
use crate::watch::WatchText;
use std::alloc::{AllocError, Global};

// Written here once more: with the library's own numbers, a wrong one would go unseen.
const MOST_INPUT: usize = 60_000;

// How long the line's buffer must be.
const LEAST_LINE: usize = 12;

// What the judging call leaves: the text of its line, and the table at the front of the scratch, if it came to one.
#[derive(Drop)]
pub struct LineText {
    pub text: String,
    pub scratch: Vec<u8>,
}

// How long the two buffers of the judging call are.
#[derive(Clone, Copy)]
pub struct Room {
    pub line: usize,
    pub scratch: usize,
}

// The bytes that follow their length in four bytes, and what is left after them.
// Two looks: the library cuts in one call, and this is to be another road.
fn measured(input: &[u8]) -> Result<(&[u8], &[u8]), Why> {
    let (len, rest) = counted(input)?;
    match (rest.get(..len), rest.get(len..)) {
        (Some(part), Some(after)) => Ok((part, after)),
        _ => Err(Why::Framing),
    }
}

// Plays the record of letters with the scope table over the pattern table, with no composed table between.
fn outcome(heap: Global, pair: Pair<'_>, record: &[u8]) -> Result<bool, Stop> {
    let mut coding = Coding::new(heap, CodingKind::Letters);
    let width = u8::try_from(pair.pattern.width()).map_err(|_| Why::Width)?;
    coding.set(Setting::Width(width))?;
    let mut watch = WatchText::new(heap, coding);
    watch.play(record)?;
    let scopes = [ScopeText::Table(pair.scope)];
    Ok(watch.try_verdict(&scopes, &PatternText::Table(pair.pattern))?)
}

// Judges an input, and leaves the composed table.
fn judged_input(
    heap: Global,
    input: &[u8],
    room: usize,
    scratch: &mut Vec<u8>,
) -> Result<bool, Stop> {
    if input.len() > MOST_INPUT {
        return Err(Stop::from(Why::InputLength));
    }
    let (pattern, after) = measured(input)?;
    let (scope, record) = measured(after)?;
    let pair = Pair::of(pattern, scope);
    *scratch = pair.composed(heap, room)?;
    outcome(heap, pair, record)
}

// The text of an outcome, ended by a line feed.
fn line_of(heap: Global, outcome: Result<bool, Stop>) -> Result<String, AllocError> {
    match outcome {
        Ok(true) => String::from_str(heap, "yes\n"),
        Ok(false) => String::from_str(heap, "no\n"),
        Err(Stop::Refused(refusal)) => format!(in heap; "refused {}\n", refusal.why.number()),
        Err(Stop::NoMemory(error)) => Err(error),
    }
}

// What the judging call does with an input and buffers of such lengths. It refuses only a line's buffer that is too
// short; any other refusal is the line.
pub fn try_judged(heap: Global, input: &[u8], room: Room) -> Result<LineText, Stop> {
    if room.line < LEAST_LINE {
        return Err(Stop::from(Why::Room));
    }
    let mut scratch = Vec::new(heap);
    let outcome = judged_input(heap, input, room.scratch, &mut scratch);
    let text = line_of(heap, outcome)?;
    Ok(LineText { text, scratch })
}

// The same, with no text and no scratch where it refuses, or where there is no memory. The text of a line is never empty.
pub fn judged(heap: Global, input: &[u8], room: Room) -> LineText {
    match try_judged(heap, input, room) {
        Ok(left) => left,
        Err(_) => LineText {
            text: String::new(heap),
            scratch: Vec::new(heap),
        },
    }
}

// Scopes and patterns by themselves: settings, some of them refused, between words, and starts.
use crate::dice::Dice;
use crate::library::{AnyPattern, AnyScope, Settable, new_pattern, new_scope};
use crate::reply::{Refusal, Reply};
use crate::supply::{Drawn, Supply};
use crate::tally::Family;
use rules::mark::Mark;
use rules::pattern::Pattern;
use rules::scope::Scope;
use second::pattern::PatternText;
use second::scope::ScopeText;
use second::text::{Reader, Text};
use std::alloc::{AllocError, Global};
use std::fmt::Debug;

// What is done to a scope or a pattern.
#[derive(Clone, Copy, Debug)]
enum Move<T> {
    Set(T),
    Read(u16),
    Start,
}

// The kinds alone, since the dice choose a kind before its values are drawn.
#[derive(Clone, Copy)]
enum MoveKind {
    Set,
    Read,
    Start,
}

// A scope or a pattern of either side.
trait Subject<T>: Settable<T> {
    // A new one of the text's kind.
    fn new(heap: Global, text: T) -> Self;

    fn start(&mut self);

    // Reads a word, and gives its mark, where words are marked.
    fn read(&mut self, word: u16) -> Result<Option<Mark>, AllocError>;

    // The verdict or the answer after what was read.
    fn says(&self) -> bool;
}

impl<'a> Subject<PatternText<'a>> for AnyPattern<'a> {
    fn new(_heap: Global, text: PatternText<'a>) -> AnyPattern<'a> {
        new_pattern(text)
    }

    fn start(&mut self) {
        Pattern::start(self);
    }

    fn read(&mut self, word: u16) -> Result<Option<Mark>, AllocError> {
        Pattern::read(self, word);
        Ok(None)
    }

    fn says(&self) -> bool {
        self.verdict()
    }
}

impl<'a> Subject<ScopeText<'a>> for AnyScope<'a> {
    fn new(_heap: Global, text: ScopeText<'a>) -> AnyScope<'a> {
        new_scope(text)
    }

    fn start(&mut self) {
        Scope::start(self);
    }

    fn read(&mut self, word: u16) -> Result<Option<Mark>, AllocError> {
        Ok(Some(self.mark(word)))
    }

    fn says(&self) -> bool {
        self.answer()
    }
}

impl<T: Text> Settable<T> for Reader<T> {
    fn set(&mut self, text: T) -> Result<(), Refusal> {
        Ok(Reader::set(self, text)?)
    }
}

impl<T: Text> Subject<T> for Reader<T> {
    fn new(heap: Global, text: T) -> Reader<T> {
        Reader::new(heap, text)
    }

    fn start(&mut self) {
        Reader::start(self);
    }

    fn read(&mut self, word: u16) -> Result<Option<Mark>, AllocError> {
        Reader::read(self, word)
    }

    fn says(&self) -> bool {
        Reader::says(self)
    }
}

// The replies of a new subject to a setting and to a word, and what is said after each move.
fn replies<T: Copy, S: Subject<T> + Drop>(
    heap: Global,
    new: T,
    moves: &[Move<T>],
) -> Result<Vec<Reply>, AllocError> {
    let mut subject = S::new(heap, new);
    let mut replies = Vec::new(heap);
    // a loop: a move gives one or two replies, and changes the subject of the next one
    for made in moves {
        match *made {
            Move::Set(text) => {
                replies.push(Reply::of(subject.set(text).map(|()| Reply::Done)))?;
            }
            Move::Read(word) => replies.extend(subject.read(word)?.map(Reply::Marked))?,
            Move::Start => subject.start(),
        }
        replies.push(Reply::Judged(subject.says()))?;
    }
    Ok(replies)
}

// A word mostly, and now and then a setting of the kind or a start.
fn move_of<'a, T: Drawn<'a>>(dice: &mut Dice, supply: &'a Supply, kind: T::Kind) -> Move<T> {
    let text = T::drawn(dice, supply, kind);
    let choices = [(1, MoveKind::Start), (3, MoveKind::Set)];
    match dice.choose(12, &choices, MoveKind::Read) {
        MoveKind::Start => Move::Start,
        MoveKind::Set => Move::Set(text),
        MoveKind::Read => Move::Read(dice.word()),
    }
}

// Puts moves to a new subject of the library and to one of the second implementation.
fn compare<'a, T: Drawn<'a> + Debug, S: Subject<T> + Drop>(
    family: &mut Family,
    supply: &'a Supply,
) -> Result<(), AllocError> {
    let heap = family.dice.heap;
    let kind = T::kind(&mut family.dice);
    let new = T::drawn(&mut family.dice, supply, kind).unset();
    let mut moves = Vec::new(heap);
    // a loop: no closure can take along a value of an associated type, as the kind is
    for _ in 0..family.dice.below(14) {
        moves.push(move_of(&mut family.dice, supply, kind))?;
    }
    let ours = replies::<T, S>(heap, new, &moves)?;
    let theirs = replies::<T, Reader<T>>(heap, new, &moves)?;
    let case = format_args!("{new:?} by {moves:?}");
    family.tally.hold(moves.len(), &ours, &theirs, case)
}

// Here and below the supply is made apart from `compare`, since the texts there borrow from it.
pub fn compare_pattern(family: &mut Family) -> Result<(), AllocError> {
    let supply = Supply::new(&mut family.dice)?;
    compare::<PatternText<'_>, AnyPattern<'_>>(family, &supply)
}

pub fn compare_scope(family: &mut Family) -> Result<(), AllocError> {
    let supply = Supply::new(&mut family.dice)?;
    compare::<ScopeText<'_>, AnyScope<'_>>(family, &supply)
}

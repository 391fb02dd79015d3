use crate::refusal::{Refusal, Stop, Why};
use rules::mark::Mark;
use std::alloc::{AllocError, Global};

// Kinds of its own: of the library, this crate takes only the marks.
#[derive(Clone, Copy, Debug)]
pub enum TableKind {
    Pattern,
    Scope,
}

// A table as its bytes, read where the format says, with 0 for what is not there.
#[derive(Clone, Copy, Debug)]
pub struct TableText<'a> {
    pub kind: TableKind,
    pub bytes: &'a [u8],
}

// 250, 8 and 6 are written here once more: with the library's own numbers, a wrong one would go unseen.
impl TableKind {
    fn most_states(self) -> usize {
        match self {
            TableKind::Pattern => 250,
            TableKind::Scope => 8,
        }
    }

    // The state that an entry names.
    fn target(self, entry: usize) -> usize {
        match self {
            TableKind::Pattern => entry,
            TableKind::Scope => entry % 64,
        }
    }
}

// What an entry of a scope table marks a word as.
// A function and no `From`: neither type is of this crate.
fn mark_of(entry: usize) -> Mark {
    match entry / 64 {
        0 => Mark::Out,
        1 => Mark::In,
        2 => Mark::Last,
        _ => Mark::Anew,
    }
}

impl<'a> TableText<'a> {
    fn byte_at(&self, at: usize) -> usize {
        self.bytes.get(at).map_or(0, |byte| usize::from(*byte))
    }

    pub fn states(&self) -> usize {
        self.byte_at(0)
    }

    pub fn width(&self) -> usize {
        self.byte_at(self.states().saturating_add(1))
    }

    // How many letters a table of this width has, lawful or not: 2 to the width.
    // By doubling: the library shifts, and this is to be another road.
    fn letters(&self) -> usize {
        (0..self.width()).fold(1, |count: usize, _| count.saturating_mul(2))
    }

    pub fn flag(&self, state: usize) -> bool {
        self.byte_at(state.saturating_add(1)) == 1
    }

    // Found in the flat bytes, since the table is its bytes: a list of rows would be another format.
    pub fn entry(&self, state: usize, letter: usize) -> usize {
        let row = state.saturating_mul(self.letters());
        let start = self.states().saturating_add(2);
        self.byte_at(start.saturating_add(row).saturating_add(letter))
    }

    fn letter(&self, word: u16) -> usize {
        usize::from(word).checked_rem(self.letters()).unwrap_or(0)
    }

    // The state after these words, from state 0 on.
    pub fn state_after(&self, words: &[u16]) -> usize {
        words.iter().fold(0, |state, word| {
            self.kind.target(self.entry(state, self.letter(*word)))
        })
    }

    // The mark of the final word of a list.
    pub fn mark(&self, words: &[u16]) -> Mark {
        match words.split_last() {
            Some((word, before)) => {
                mark_of(self.entry(self.state_after(before), self.letter(*word)))
            }
            None => Mark::Out,
        }
    }

    // The table that is held before another is loaded.
    pub fn built_in(self) -> TableText<'a> {
        let bytes = match self.kind {
            TableKind::Pattern => &[1, 1, 0, 0],
            TableKind::Scope => &[1, 1, 0, 64],
        };
        TableText { bytes, ..self }
    }

    // Refuses bytes that are no lawful table of the kind.
    // By the places of the bytes: the library cuts them into parts, and this is to be another road.
    pub fn check(&self) -> Result<(), Refusal> {
        if self.bytes.is_empty() {
            return Err(Refusal::from(Why::TableLength));
        }
        let n = self.states();
        if n == 0 || n > self.kind.most_states() {
            return Err(Why::States.at(0));
        }
        let front = n.saturating_add(2);
        if self.bytes.len() < front {
            return Err(Refusal::from(Why::TableLength));
        }
        let width_at = n.saturating_add(1);
        if let Some(place) = (1..width_at).find(|place| self.byte_at(*place) > 1) {
            return Err(Why::Flag.at(place));
        }
        if self.width() > 6 {
            return Err(Why::Width.at(width_at));
        }
        if self.bytes.len() != n.saturating_mul(self.letters()).saturating_add(front) {
            return Err(Refusal::from(Why::TableLength));
        }
        self.check_entries(n)
    }

    // Each entry names one of n states.
    fn check_entries(&self, n: usize) -> Result<(), Refusal> {
        let stray = (n.saturating_add(2)..self.bytes.len()).find(|place| self
            .kind
            .target(self.byte_at(*place))
            >= n);
        match stray {
            Some(place) => Err(Why::Entry.at(place)),
            None => Ok(()),
        }
    }
}

// Two tables to be composed.
#[derive(Clone, Copy)]
pub struct Pair<'a> {
    pub pattern: TableText<'a>,
    pub scope: TableText<'a>,
}

// A state of the composed table: a state of the scope with nothing open, one with a state of the pattern, or failed.
// States of its own: of the library, this crate takes only the marks.
#[derive(Clone, Copy)]
enum State {
    Shut(usize),
    Open(usize, usize),
    Failed,
}

impl<'a> Pair<'a> {
    pub fn of(pattern: &'a [u8], scope: &'a [u8]) -> Pair<'a> {
        Pair {
            pattern: TableText {
                kind: TableKind::Pattern,
                bytes: pattern,
            },
            scope: TableText {
                kind: TableKind::Scope,
                bytes: scope,
            },
        }
    }

    // The number of a composed state.
    fn number(&self, state: State) -> usize {
        let run = self.pattern.states().saturating_add(1);
        match state {
            State::Shut(s) => s.saturating_mul(run),
            State::Open(s, q) => s.saturating_mul(run).saturating_add(1).saturating_add(q),
            State::Failed => self.scope.states().saturating_mul(run),
        }
    }

    pub fn composed_states(&self) -> usize {
        self.number(State::Failed).saturating_add(1)
    }

    // The composed states by their numbers: those of the scope in order, each with nothing open and then with each
    // state of the pattern, and failed after them.
    // A loop: a chain of rows with one state before each and one after all would be no plainer.
    fn states(&self, heap: Global) -> Result<Vec<State>, AllocError> {
        let mut states = Vec::new(heap);
        for s in 0..self.scope.states() {
            states.push(State::Shut(s))?;
            states.extend((0..self.pattern.states()).map(|q| State::Open(s, q)))?;
        }
        states.push(State::Failed)?;
        Ok(states)
    }

    fn flag(&self, state: State) -> bool {
        match state {
            State::Shut(_) => true,
            State::Open(s, q) => self.pattern.flag(q) || !self.scope.flag(s),
            State::Failed => false,
        }
    }

    // Where a letter leads.
    fn next(&self, state: State, letter: usize) -> State {
        let (s, q) = match state {
            State::Shut(s) => (s, None),
            State::Open(s, q) => (s, Some(q)),
            State::Failed => return State::Failed,
        };
        let entry = self.scope.entry(s, letter);
        // of a scope's entry, of whatever kind the table says it is
        let t = entry % 64;
        let on = self.pattern.entry(q.unwrap_or(0), letter);
        let sound = match mark_of(entry) {
            Mark::In => return State::Open(t, on),
            Mark::Anew => return State::Open(t, self.pattern.entry(0, letter)),
            Mark::Last => self.pattern.flag(on),
            Mark::Out => q.is_none_or(|q| self.pattern.flag(q)),
        };
        if sound { State::Shut(t) } else { State::Failed }
    }

    // Refuses tables that do not compose into so many bytes.
    fn check(&self, room: usize) -> Result<(), Refusal> {
        self.pattern.check()?;
        self.scope.check()?;
        if self.pattern.width() != self.scope.width() {
            return Err(Refusal::from(Why::OtherWidth));
        }
        let states = self.composed_states();
        if states > 250 {
            return Err(Refusal::from(Why::ComposedStates));
        }
        let rows = states.saturating_mul(self.pattern.letters());
        if room < rows.saturating_add(states).saturating_add(2) {
            return Err(Refusal::from(Why::Room));
        }
        Ok(())
    }

    // The composed table, state by state.
    // Loops: each number may be no byte, and a chain of such rows would be no plainer.
    pub fn composed(&self, heap: Global, room: usize) -> Result<Vec<u8>, Stop> {
        self.check(room)?;
        let states = self.states(heap)?;
        let mut bytes = Vec::new(heap);
        bytes.push(byte(states.len())?)?;
        bytes.extend(states.iter().map(|state| u8::from(self.flag(*state))))?;
        bytes.push(byte(self.pattern.width())?)?;
        for state in states.iter() {
            for letter in 0..self.pattern.letters() {
                bytes.push(byte(self.number(self.next(*state, letter)))?)?;
            }
        }
        Ok(bytes)
    }
}

// A number as a byte of a composed table.
fn byte(number: usize) -> Result<u8, Why> {
    u8::try_from(number).map_err(|_| Why::ComposedStates)
}

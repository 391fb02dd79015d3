ghost use Rattle.std.specs.Prelude.{◌≡◌, ℕ, ◌+◌, ◌*◌, ◌<◌, ◌≤◌, false, length, is_some, IfOk, IfSome, MatchResult, slice_index};
ghost use Rattle.std.specs.Result.{result_err};
ghost use Rattle.table_format.specs.Layout.{target, states_of, width_of, size_of, flag_of, entry_of, flag_at, entry_at, built_in};
ghost use Rattle.table_format.specs.Checked.{checked};
ghost use Rattle.tables.specs.Runs.{letter_of};

use table_format::check::check;
use table_format::fault::TableFault;
use table_format::kind::Kind;

static ACCEPT_ALL: [u8; 4] = [1, 1, 0, 0];

static MARK_ALL_IN: [u8; 4] = [1, 1, 0, 64];

// A lawful table, borrowed. Whoever has one reads it without checking it again. Clauses name its bytes, of which all
// definitions of the format are: a `Model` would be a second name for them.
#[derive(Clone, Copy)]
pub struct Table<'a> {
    // a value and not a parameter of the type, since public calls take it as an argument
    kind: Kind,
    bytes: &'a [u8],
    // read off the bytes once, so that a word costs no shift: the number of states and the length of a row
    states: usize,
    size: usize,
    ghost lawful: { is_some (checked kind bytes.now) ≡ false },
    ghost counted: { states ≡ states_of bytes.now },
    ghost sized: { size ≡ size_of bytes.now },
    ghost narrow: { size ≤ 64 },
    ghost long: { length bytes.now ≡ 2 + states + states * size },
}

impl<'a> Table<'a> {
    // The table that is held until another is: one state, which accepts, or marks in and says yes.
    pub fn built_in(kind: Kind) -> Table<'a>
        ensures kind { result.kind ≡ kind }
        ensures bytes { result.bytes.now ≡ built_in kind }
    {
        match kind {
            Kind::Pattern => Table::over(kind, &ACCEPT_ALL),
            Kind::Scope => Table::over(kind, &MARK_ALL_IN),
        }
    }

    // The table that the bytes are, if they are a lawful table of the kind.
    pub fn new(kind: Kind, bytes: &'a [u8]) -> Result<Table<'a>, TableFault>
        ensures says { result_err result ≡ checked kind bytes.now }
        ensures holds { IfOk result (λ table. (table.kind ≡ kind) × (table.bytes.now ≡ bytes.now)) }
    {
        check(kind, bytes)?;
        Ok(Table::over(kind, bytes))
    }

    // Checks the bytes and holds them in place of the table held. A refusal keeps the one held, as the one clause
    // on both outcomes says.
    pub fn replace(&mut self, bytes: &'a [u8]) -> Result<(), TableFault>
        ensures says { result_err result ≡ checked self.old.kind bytes.now }
        ensures holds { MatchResult result (λ _. (self.new.kind ≡ self.old.kind) × (self.new.bytes.now ≡ bytes.now)) (λ _. self.new ≡ self.old) }
    {
        *self = Table::new(self.kind, bytes)?;
        Ok(())
    }

    // The view of bytes that have been checked.
    pub(crate) fn over(kind: Kind, bytes: &'a [u8]) -> Table<'a>
        requires { is_some (checked kind bytes.now) ≡ false }
        ensures bytes { result.bytes.now ≡ bytes.now }
        ensures kind { result.kind ≡ kind }
    {
        let states = usize::from(bytes[0]);
        let size = 1usize << bytes[1 + states];
        Table {
            kind,
            bytes,
            states,
            size,
        }
    }

    pub fn states(&self) -> usize
        ensures { result ≡ states_of self.now.bytes.now }
    {
        self.states
    }

    pub fn width(&self) -> u8
        ensures { result ≡ width_of self.now.bytes.now }
    {
        self.bytes[1 + self.states]
    }

    // The length of a row, 2 to the width.
    pub fn size(&self) -> usize
        ensures value { result ≡ size_of self.now.bytes.now }
        ensures narrow { result ≤ 64 }
    {
        self.size
    }

    // The flag of a state, if there is such a state.
    pub fn flag(&self, state: usize) -> Option<bool>
        ensures { result ≡ flag_at self.now.bytes.now state }
    {
        if state < self.states {
            Some(self.flag_of(state))
        } else {
            None
        }
    }

    // The entry of a state at a letter, if there are such a state and such a letter.
    pub fn entry(&self, state: usize, letter: usize) -> Option<u8>
        ensures value { result ≡ entry_at self.now.bytes.now state letter }
        ensures leads { IfSome result (λ entry. target self.now.kind entry < states_of self.now.bytes.now) }
    {
        if state < self.states && letter < self.size {
            Some(self.entry_of(state, letter))
        } else {
            None
        }
    }

    // The letter of a word: its remainder by the length of a row, which is a power of two.
    pub fn letter(&self, word: u16) -> usize
        ensures value { result ≡ letter_of self.now.bytes.now word }
        ensures below { result < size_of self.now.bytes.now }
    {
        word as usize & (self.size - 1) // by `as`: with `From` the answer did not check
    }

    // The flag of a state that exists. This and `entry_of` give no `Option`, since it would never be `None`.
    pub(crate) fn flag_of(&self, state: usize) -> bool
        requires { state < states_of self.now.bytes.now }
        ensures { result ≡ flag_of self.now.bytes.now state }
    {
        self.bytes[1 + state] == 1
    }

    pub(crate) fn entry_of(&self, state: usize, letter: usize) -> u8
        requires state_bound { state < states_of self.now.bytes.now }
        requires letter_bound { letter < size_of self.now.bytes.now }
        ensures value { result ≡ entry_of self.now.bytes.now state letter }
        ensures leads { target self.now.kind result < states_of self.now.bytes.now }
    {
        let start = 2 + self.states + state * self.size;
        entry_in(&self.bytes[start..start + self.size], letter)
    }
}

// The entry of a row at a letter.
fn entry_in(row: &[u8], letter: usize) -> u8
    requires { letter < length row.now }
    ensures { result ≡ slice_index row.now letter }
{
    row[letter]
}

ghost use Rattle.std.specs.Prelude.{◌≡◌, ◌<◌, IfOk};
ghost use Rattle.std.specs.Result.{result_err};
ghost use Rattle.table_format.specs.Checked.{checked};
ghost use Rattle.table_format.specs.Layout.{target, states_of, width_of, flag_of, entry_of, built_in};
ghost use Rattle.tables.specs.Runs.{letter_of};

use crate::table::Table;
use table_format::fault::TableFault;
use table_format::kind::Kind;

// A table that is being read: it stands in one of its states.
#[derive(Clone, Copy)]
pub struct Walk<'a> {
    table: Table<'a>,
    state: usize,
    ghost inside: { state < states_of table.bytes.now },
}

impl<'a> Walk<'a> {
    // The built-in table, at its start.
    pub(crate) fn new(kind: Kind) -> Walk<'a>
        ensures kind { result.table.kind ≡ kind }
        ensures bytes { result.table.bytes.now ≡ built_in kind }
        ensures fresh { result.state ≡ 0 }
    {
        Walk {
            table: Table::built_in(kind),
            state: 0,
        }
    }

    // The bytes at their start, if they are a lawful table of the kind of the one held.
    pub(crate) fn load(&self, bytes: &'a [u8]) -> Result<Walk<'a>, TableFault>
        ensures says { result_err result ≡ checked self.now.table.kind bytes.now }
        ensures holds { IfOk result (λ walk. (walk.table.kind ≡ self.now.table.kind) × (walk.table.bytes.now ≡ bytes.now) × (walk.state ≡ 0)) }
    {
        let mut table = self.table;
        table.replace(bytes)?;
        Ok(Walk { table, state: 0 })
    }

    pub(crate) fn start(&mut self)
        ensures kept { self.new.table ≡ self.old.table }
        ensures fresh { self.new.state ≡ 0 }
    {
        self.state = 0;
    }

    // The entry of the state at a word.
    pub(crate) fn entry(&self, word: u16) -> u8
        ensures value { result ≡ entry_of self.now.table.bytes.now self.now.state (letter_of self.now.table.bytes.now word) }
        ensures leads { target self.now.table.kind result < states_of self.now.table.bytes.now }
    {
        self.table.entry_of(self.state, self.table.letter(word))
    }

    pub(crate) fn go(&mut self, state: u8)
        requires { state < states_of self.old.table.bytes.now }
        ensures kept { self.new.table ≡ self.old.table }
        ensures stands { self.new.state ≡ state }
    {
        self.state = usize::from(state);
    }

    // The flag of the state.
    pub(crate) fn flag(&self) -> bool
        ensures { result ≡ flag_of self.now.table.bytes.now self.now.state }
    {
        self.table.flag_of(self.state)
    }

    pub(crate) fn width(&self) -> u8
        ensures { result ≡ width_of self.now.table.bytes.now }
    {
        self.table.width()
    }
}

ghost use Rattle.std.specs.Prelude.{◌≡◌, Some};
ghost use Rattle.table_format.specs.Layout.{most, target};
ghost use Rattle.table_format.specs.Texts.{kind_text};

use std::fmt;

// A pattern table says which lists are accepted, and a scope table marks words. The crate `second` writes its own,
// so that a slip here is not repeated there.
#[derive(Clone, Copy, PartialEq, Eq, Debug)]
pub enum Kind {
    Pattern,
    Scope,
}

impl Kind {
    // The largest number of states.
    pub fn most_states(self) -> u8
        ensures { result ≡ most self }
    {
        match self {
            Kind::Pattern => 250,
            Kind::Scope => 8,
        }
    }

    // The state that an entry leads to. A scope's entry has its mark above the low six bits.
    pub fn next_state(self, entry: u8) -> u8
        ensures { result ≡ target self entry }
    {
        match self {
            Kind::Pattern => entry,
            Kind::Scope => entry % 64,
        }
    }
}

impl fmt::Display for Kind {
    ghost output = { λ kind. Some (kind_text kind) };

    fn fmt<W: fmt::Write>(&self, f: &mut fmt::Formatter<W>) -> fmt::Result {
        f.write_str(match self {
            Kind::Pattern => "pattern table",
            Kind::Scope => "scope table",
        })
    }
}

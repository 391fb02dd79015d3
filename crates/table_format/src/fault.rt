ghost use Rattle.std.specs.Prelude.{◌≡◌, Some};
ghost use Rattle.table_format.specs.Faults.{fault_number, fault_place};
ghost use Rattle.table_format.specs.Texts.{fault_text};

use std::error::Error;
use std::fmt;

// Why bytes are no lawful table. A place is the offset of the byte to blame.
#[derive(Clone, Copy, PartialEq, Eq, Debug)]
pub enum TableFault {
    // the bytes are too few or too many
    Length,
    // the number of states is 0 or above the kind's limit
    States,
    // the first flag that is neither 0 nor 1
    Flag(usize),
    // a width above 6
    Width(usize),
    // the first entry that names no state
    Entry(usize),
}

impl TableFault {
    // The number by which the formats and the C entries name the refusal.
    pub fn number(self) -> u8
        ensures { result ≡ fault_number self }
    {
        match self {
            TableFault::Length => 9,
            TableFault::States => 10,
            TableFault::Flag(_) => 11,
            TableFault::Width(_) => 12,
            TableFault::Entry(_) => 13,
        }
    }

    // The offset of the byte to blame, if it is one byte.
    pub fn place(self) -> Option<usize>
        ensures { result ≡ fault_place self }
    {
        match self {
            TableFault::Length => None,
            TableFault::States => Some(0),
            TableFault::Flag(place) => Some(place),
            TableFault::Width(place) => Some(place),
            TableFault::Entry(place) => Some(place),
        }
    }
}

impl fmt::Display for TableFault {
    ghost output = { λ fault. Some (fault_text fault) };

    fn fmt<W: fmt::Write>(&self, f: &mut fmt::Formatter<W>) -> fmt::Result {
        f.write_str(match self {
            TableFault::Length => "too few or too many bytes",
            TableFault::States => "the number of states is 0 or above the limit",
            TableFault::Flag(_) => "a flag is neither 0 nor 1",
            TableFault::Width(_) => "the width is above 6",
            TableFault::Entry(_) => "an entry names no state",
        })?;
        match self.place() {
            Some(place) => write!(f, ", byte {place}"),
            None => Ok(()),
        }
    }
}

impl Error for TableFault {}

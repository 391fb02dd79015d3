ghost use Rattle.std.specs.Prelude.{◌≡◌};
ghost use Rattle.second.specs.Settings.{bare};
ghost use Rattle.second.specs.declared.refusal.Stop.TheVariants.{Refused};

use std::alloc::{AllocError, AllocFailed};

// Why the rules refuse something, with the number that they give it.
#[derive(Clone, Copy, PartialEq, Debug)]
pub enum Why {
    // a part of a record has not the size of a sample
    SampleSize = 1,
    // a contact sample has a bit above its contacts
    Contact = 2,
    // a reading is out of range
    Reading = 3,
    // what is set is out of range
    Range = 4,
    // a term's values do not fit each other or their range
    Term = 5,
    // the condition has all its terms
    ManyTerms = 6,
    // the watch has all its samples
    ManySamples = 7,
    // a record or an input is not as long as it says
    Framing = 8,
    // a table is not as long as it says
    TableLength = 9,
    // a table has no states or too many
    States = 10,
    // a flag is neither 0 nor 1
    Flag = 11,
    // a width is too large
    Width = 12,
    // an entry names no state
    Entry = 13,
    // the tables have not one width
    OtherWidth = 14,
    // the composed table would have too many states
    ComposedStates = 15,
    // a buffer is too short
    Room = 16,
    // a letter has a bit above its width
    Letter = 17,
    // an input is too long
    InputLength = 18,
}

// A refusal, with the values that its fault holds: the place in the record or the table, and the number of samples
// accepted before.
#[derive(Clone, Copy, PartialEq, Debug)]
pub struct Refusal {
    pub why: Why,
    pub place: Option<usize>,
    pub count: Option<usize>,
}

// Why a call comes to nothing: the rules refuse it, or there is no memory to work it out.
#[derive(Clone, Copy, Debug)]
pub enum Stop {
    Refused(Refusal),
    NoMemory(AllocError),
}

impl Why {
    pub fn number(self) -> u8 {
        self as u8
    }

    // The refusal that blames the byte at a place.
    pub fn at(self, place: usize) -> Refusal {
        Refusal {
            place: Some(place),
            ..Refusal::from(self)
        }
    }

    // The refusal of a sample after so many.
    pub fn after(self, count: usize) -> Refusal {
        Refusal {
            count: Some(count),
            ..Refusal::from(self)
        }
    }
}

impl From<Why> for Refusal {
    ghost from_gives = { λ why refusal. refusal ≡ bare why };

    fn from(why: Why) -> Refusal {
        Refusal {
            why,
            place: None,
            count: None,
        }
    }
}

impl Stop {
    // The refusal, unless memory is what was missing.
    pub fn refusal(self) -> Result<Refusal, AllocError> {
        match self {
            Stop::Refused(refusal) => Ok(refusal),
            Stop::NoMemory(error) => Err(error),
        }
    }

    // A refusal that blames the byte at a place.
    pub fn at(self, place: usize) -> Stop {
        match self {
            Stop::Refused(refusal) => Stop::Refused(Refusal {
                place: Some(place),
                ..refusal
            }),
            Stop::NoMemory(error) => Stop::NoMemory(error),
        }
    }
}

// By hand: thiserror would ask for texts, which nothing here prints.
impl From<Refusal> for Stop {
    fn from(refusal: Refusal) -> Stop {
        Stop::Refused(refusal)
    }
}

impl From<Why> for Stop {
    ghost from_gives = { λ why stop. stop ≡ Refused (bare why) };

    fn from(why: Why) -> Stop {
        Stop::Refused(Refusal::from(why))
    }
}

impl From<AllocError> for Stop {
    fn from(error: AllocError) -> Stop {
        Stop::NoMemory(error)
    }
}

impl<T: Drop> From<AllocFailed<T>> for Stop {
    fn from(failed: AllocFailed<T>) -> Stop {
        Stop::NoMemory(AllocError::from(failed))
    }
}

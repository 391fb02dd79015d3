// A program's input: parts that each follow their own length.

#![tactic(auto)]

pub mod reading;

ghost use Rattle.std.specs.Prelude.{◌≡◌};
ghost use Rattle.framing.specs.Framed.{fault_number, announcement, parts_of, split, held, framed};

// The longest input that a program takes, in bytes.
pub const MOST_INPUT: usize = 60_000;

// A length, or a record's count, is written in four bytes, high byte first, before what it is of.
pub const PREFIX: usize = 4;

#[derive(Clone, Copy, PartialEq, Eq, Debug)]
pub enum InputFault {
    // the input ends before a length or before what the length announces
    CutShort,
    // the input is longer than a program takes
    TooLong,
}

impl InputFault {
    // A number, since docs/REFUSALS.md promises one that never changes its meaning.
    pub fn number(self) -> u8
        ensures { result ≡ fault_number self }
    {
        match self {
            InputFault::CutShort => 8,
            InputFault::TooLong => 18,
        }
    }
}

// A part and what comes after it.
#[derive(Clone, Copy)]
pub struct Part<'a> {
    pub bytes: &'a [u8],
    pub after: &'a [u8],
}

// A pattern table, a scope table and what comes after them, none of them looked at.
#[derive(Clone, Copy)]
pub struct Tables<'a> {
    pub pattern: &'a [u8],
    pub scope: &'a [u8],
    pub after: &'a [u8],
}

// The number in the first four bytes, if there are four.
pub fn announced(input: &[u8]) -> Option<usize>
    ensures { result ≡ announcement input.now }
{
    let bytes = input.first_chunk::<PREFIX>()?;
    // a usize holds every u32, and the library has no `From` for it
    Some(u32::from_be_bytes(*bytes) as usize)
}

// Takes a part that follows its length off the front of the input.
fn take_part(input: &[u8]) -> Result<Part<'_>, InputFault>
    ensures { parts_of result ≡ split input.now }
{
    let len = announced(input).ok_or(InputFault::CutShort)?;
    let (bytes, after) = input[PREFIX..]
        .split_at_checked(len)
        .ok_or(InputFault::CutShort)?;
    Ok(Part { bytes, after })
}

// The two tables of a program's input.
pub fn tables_of(input: &[u8]) -> Result<Tables<'_>, InputFault>
    ensures { held result ≡ framed input.now }
{
    if input.len() > MOST_INPUT {
        return Err(InputFault::TooLong);
    }
    let pattern = take_part(input)?;
    let scope = take_part(pattern.after)?;
    Ok(Tables {
        pattern: pattern.bytes,
        scope: scope.bytes,
        after: scope.after,
    })
}

impl std::fmt::Display for InputFault {
    ghost use Rattle.std.specs.Prelude.{Some};
    ghost use Rattle.framing.specs.Texts.{fault_text};

    ghost output = { λ fault. Some (fault_text fault) };

    fn fmt<W: std::fmt::Write>(&self, f: &mut std::fmt::Formatter<W>) -> std::fmt::Result {
        f.write_str(match self {
            InputFault::CutShort => "the input ends before a table does",
            InputFault::TooLong => "more than 60000 bytes",
        })
    }
}

impl std::error::Error for InputFault {}

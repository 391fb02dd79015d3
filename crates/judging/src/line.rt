ghost use Rattle.std.specs.Prelude.{◌≡◌, ◌<◌, ◌≤◌, List, [], ◌∷◌, length, IfOk, if◌then◌else◌, Ok, Err, nat_lt};
ghost use Rattle.framing.specs.Framed.{framed};
ghost use Rattle.judging.specs.Lines.{line_number, refused_text, line_of, over, Written};
ghost use Rattle.judging.specs.Outcomes.{input_judged, scratch_of};
ghost use Rattle.judging.specs.declared.line.LineFault.TheVariants.{Room};

use crate::fault::JudgeFault;
use crate::judge::judge_input;

// Room for the longest line, as a length: an array would ask it of callers, who are refused instead.
pub const LINE_ROOM: usize = 12;

// Why no line is written.
#[derive(Clone, Copy, PartialEq, Eq, Debug)]
pub enum LineFault {
    // the line's buffer is shorter than `LINE_ROOM`
    Room,
}

impl LineFault {
    // An enum of one case, since docs/REFUSALS.md promises a number for it that never changes its meaning.
    pub fn number(self) -> u8
        ensures { result ≡ line_number self }
    {
        match self {
            LineFault::Room => 16,
        }
    }
}

// Writes a text at the front of the line, and gives its length. Bytes and no `write!`, since each byte of the buffer
// stands in the clauses.
fn put(text: &[u8], line: &mut [u8]) -> usize
    requires { length text.now ≤ length line.old }
    ensures { Written text.now result line.old line.new }
{
    let len = text.len();
    line[0..len].copy_from_slice(text);
    len
}

// Takes the number and not the fault, as the definition of the text does.
fn put_refusal(number: u8, line: &mut [u8]) -> usize
    requires number_bound { number < 100 }
    requires in_bounds { 12 ≤ length line.old }
    ensures written { Written (refused_text number) result line.old line.new }
    ensures short { result ≤ 12 }
{
    let start = put(b"refused ", line);
    let ones = b'0' + number % 10;
    if number < 10 {
        start + put(&[ones, b'\n'], &mut line[start..])
    } else {
        start + put(&[b'0' + number / 10, ones, b'\n'], &mut line[start..])
    }
}

fn put_outcome(outcome: Result<bool, JudgeFault>, line: &mut [u8]) -> usize
    requires { 12 ≤ length line.old }
    ensures written { Written (line_of outcome) result line.old line.new }
    ensures short { result ≤ 12 }
{
    match outcome {
        Ok(true) => put(b"yes\n", line),
        Ok(false) => put(b"no\n", line),
        Err(fault) => put_refusal(fault.number(), line),
    }
}

// Judges an input and writes the outcome as text, `yes`, `no` or `refused` and the fault's number, ended by a
// line feed. Gives the text's length. The buffers are the caller's, since there is no heap here.
pub fn judge_line(input: &[u8], scratch: &mut [u8], line: &mut [u8]) -> Result<usize, LineFault>
    ensures value { result ≡ (if nat_lt (length line.old) 12 then Err Room else Ok (length (line_of (input_judged input.now (length scratch.old))))) }
    ensures short { IfOk result (λ n. n ≤ 12) }
    ensures line { line.new ≡ (if nat_lt (length line.old) 12 then line.old else over (line_of (input_judged input.now (length scratch.old))) line.old) }
    ensures scratch { scratch.new ≡ (if nat_lt (length line.old) 12 then scratch.old else scratch_of (framed input.now) scratch.old (length scratch.old)) }
{
    if line.len() < LINE_ROOM {
        return Err(LineFault::Room);
    }
    let outcome = judge_input(input, scratch);
    Ok(put_outcome(outcome, line))
}

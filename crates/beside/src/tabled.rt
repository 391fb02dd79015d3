// Tables: checking them, composing them into buffers of all lengths, and judging whole inputs.
use crate::dice::Dice;
use crate::reply::Reply;
use crate::supply::table;
use crate::tally::Family;
use composing::compose::compose;
use judging::line::judge_line;
use second::line::{Room, try_judged};
use second::table::{Pair, TableKind, TableText};
use std::alloc::{AllocError, Global};
use table_format::check::check;
use table_format::kind::Kind;

// Two tables of one case.
#[derive(Debug, Drop)]
struct Tables {
    pattern: Vec<u8>,
    scope: Vec<u8>,
}

// How a buffer's length stands to what is needed.
// The kinds of lengths alone: only the length that is chosen is drawn.
#[derive(Clone, Copy)]
enum Length {
    Exact,
    OneLess,
    Less,
    More,
}

// What a call replies, and what its buffer holds then.
// Not one struct with `Lined`, which has two buffers: each is compared with the one of its name.
#[derive(Drop)]
struct Composed {
    reply: Reply,
    out: Vec<u8>,
}

// What a call replies, and what the line and the scratch hold then.
#[derive(Drop)]
struct Lined {
    reply: Reply,
    line: Vec<u8>,
    scratch: Vec<u8>,
}

impl Tables {
    // A pattern table and a scope table, mostly lawful and mostly of one width; now and then as large as there are.
    fn any(dice: &mut Dice) -> Result<Tables, AllocError> {
        let large = dice.one_in(400);
        let width = if large { 6 } else { dice.byte_below(4) };
        let most = if large { 250 } else { 36 };
        let pattern = table(dice, TableKind::Pattern, most, width)?;
        let other = if dice.one_in(12) {
            dice.byte_below(4)
        } else {
            width
        };
        let scope = table(dice, TableKind::Scope, 8, other)?;
        Ok(Tables { pattern, scope })
    }

    fn pair(&self) -> Pair<'_> {
        Pair::of(&self.pattern, &self.scope)
    }

    fn size(&self) -> usize {
        self.pattern.len().saturating_add(self.scope.len())
    }

    // How long a composed table is, where the tables compose.
    // The remainders keep the numbers of damaged tables within those of the format.
    fn composed_length(&self) -> usize {
        let pair = self.pair();
        let states = pair.composed_states() % 251;
        let width = pair.pattern.width() % 7;
        (states << width) + states + 2
    }
}

impl Length {
    // A length for a buffer that should hold so many bytes.
    fn any(dice: &mut Dice, needed: usize) -> usize {
        let choices = [(1, Length::Exact), (1, Length::OneLess), (1, Length::Less)];
        match dice.choose(8, &choices, Length::More) {
            Length::Exact => needed,
            Length::OneLess => needed.saturating_sub(1),
            Length::Less => dice.below(needed),
            Length::More => needed.saturating_add(dice.below(9)),
        }
    }
}

// Kind and bytes, as the library takes them; no `From` for the kind, since neither is of this crate.
fn check_ours(kind: TableKind, bytes: &[u8]) -> Reply {
    let kind = match kind {
        TableKind::Pattern => Kind::Pattern,
        TableKind::Scope => Kind::Scope,
    };
    Reply::of(check(kind, bytes).map(|()| Reply::Done))
}

fn check_theirs(kind: TableKind, bytes: &[u8]) -> Reply {
    Reply::of((TableText { kind, bytes }).check().map(|()| Reply::Done))
}

// What every byte of a buffer is before it is written to.
const OLD: u8 = 0xa5;

// A buffer of so many bytes with the written ones in front.
fn written(heap: Global, front: &[u8], length: usize) -> Result<Vec<u8>, AllocError> {
    let mut bytes = Vec::from_slice(heap, front)?;
    bytes.resize(length.max(front.len()), OLD)?;
    Ok(bytes)
}

// Nothing where the bytes are as they should be, and else the first place where they are not.
fn bytes_reply(bytes: &[u8], expected: &[u8]) -> Reply {
    if bytes.len() != expected.len() {
        return Reply::Accepted(bytes.len());
    }
    let differs = bytes
        .iter()
        .zip(expected)
        .position(|(byte, wanted)| byte != wanted);
    differs.map_or(Reply::Done, Reply::Accepted)
}

pub fn check_both(family: &mut Family) -> Result<(), AllocError> {
    let tables = Tables::any(&mut family.dice)?;
    let swapped = family.dice.one_in(10);
    let (p, s) = if swapped {
        (TableKind::Scope, TableKind::Pattern)
    } else {
        (TableKind::Pattern, TableKind::Scope)
    };
    let ours = [check_ours(p, &tables.pattern), check_ours(s, &tables.scope)];
    let theirs = [
        check_theirs(p, &tables.pattern),
        check_theirs(s, &tables.scope),
    ];
    let case = format_args!("kinds swapped {swapped}, checked {tables:?}");
    family.tally.hold(tables.size(), &ours, &theirs, case)
}

fn composed_ours(heap: Global, tables: &Tables, length: usize) -> Result<Composed, AllocError> {
    let mut out = written(heap, &[], length)?;
    let composed = compose(&tables.pattern, &tables.scope, &mut out);
    let reply = Reply::of(composed.map(Reply::Accepted));
    Ok(Composed { reply, out })
}

fn composed_theirs(heap: Global, pair: Pair<'_>, length: usize) -> Result<Composed, AllocError> {
    match pair.composed(heap, length) {
        Ok(table) => Ok(Composed {
            reply: Reply::Accepted(table.len()),
            out: written(heap, &table, length)?,
        }),
        Err(stop) => Ok(Composed {
            reply: Reply::heard(Err(stop))?,
            out: written(heap, &[], length)?,
        }),
    }
}

pub fn compose_both(family: &mut Family) -> Result<(), AllocError> {
    let heap = family.dice.heap;
    let tables = Tables::any(&mut family.dice)?;
    let length = Length::any(&mut family.dice, tables.composed_length());
    let composed = composed_ours(heap, &tables, length)?;
    let expected = composed_theirs(heap, tables.pair(), length)?;
    let ours = [composed.reply, bytes_reply(&composed.out, &expected.out)];
    let theirs = [expected.reply, Reply::Done];
    let case = format_args!("{tables:?} in {length}");
    family.tally.hold(tables.size(), &ours, &theirs, case)
}

// Appends bytes behind their length, which is wrong now and then.
fn push_measured(dice: &mut Dice, bytes: &[u8], input: &mut Vec<u8>) -> Result<(), AllocError> {
    let wrong = dice.one_in(40);
    let length = if wrong {
        dice.below(70_000)
    } else {
        bytes.len()
    };
    let length = u32::try_from(length).unwrap_or(u32::MAX);
    input.extend_from_slice(&length.to_be_bytes())?;
    input.extend_from_slice(bytes)
}

// An input of two tables and a record of letters; now and then it is cut, or too long.
fn input(dice: &mut Dice, tables: &Tables) -> Result<Vec<u8>, AllocError> {
    let mut input = Vec::new(dice.heap);
    push_measured(dice, &tables.pattern, &mut input)?;
    push_measured(dice, &tables.scope, &mut input)?;
    let count = dice.byte_below(9);
    let wrong = dice.one_in(15);
    let most = if dice.one_in(8) { 9 } else { 2 };
    let said = if wrong { dice.byte_below(9) } else { count };
    input.extend_from_slice(&[0, 0, 0, said])?;
    input.extend((0..count).map(|_| dice.byte_below(most)))?;
    if dice.one_in(25) {
        input.truncate(dice.below(input.len()));
    }
    if dice.one_in(2_000) {
        let length = input.len().max(59_999).saturating_add(dice.below(4));
        input.resize(length, 0)?;
    }
    Ok(input)
}

fn lined_ours(heap: Global, input: &[u8], room: Room) -> Result<Lined, AllocError> {
    let mut line = written(heap, &[], room.line)?;
    let mut scratch = written(heap, &[], room.scratch)?;
    let judged = judge_line(input, &mut scratch, &mut line);
    Ok(Lined {
        reply: Reply::of(judged.map(Reply::Accepted)),
        line,
        scratch,
    })
}

fn lined_theirs(heap: Global, input: &[u8], room: Room) -> Result<Lined, AllocError> {
    match try_judged(heap, input, room) {
        Ok(left) => Ok(Lined {
            reply: Reply::Accepted(left.text.len()),
            line: written(heap, left.text.as_bytes(), room.line)?,
            scratch: written(heap, &left.scratch, room.scratch)?,
        }),
        Err(stop) => Ok(Lined {
            reply: Reply::heard(Err(stop))?,
            line: written(heap, &[], room.line)?,
            scratch: written(heap, &[], room.scratch)?,
        }),
    }
}

// Puts an input to both.
pub fn judge_both(family: &mut Family) -> Result<(), AllocError> {
    let heap = family.dice.heap;
    let tables = Tables::any(&mut family.dice)?;
    let input = input(&mut family.dice, &tables)?;
    let scratch = Length::any(&mut family.dice, tables.composed_length());
    let line = family.dice.below(6).saturating_add(10);
    let room = Room { line, scratch };
    let lined = lined_ours(heap, &input, room)?;
    let expected = lined_theirs(heap, &input, room)?;
    let ours = [
        lined.reply,
        bytes_reply(&lined.line, &expected.line),
        bytes_reply(&lined.scratch, &expected.scratch),
    ];
    let theirs = [expected.reply, Reply::Done, Reply::Done];
    let case = format_args!("{input:?} wrote {:?}", lined.line);
    family.tally.hold(input.len(), &ours, &theirs, case)
}

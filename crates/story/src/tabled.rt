use crate::telling::{tell_feeding, tell_record};
use crate::trouble::Trouble;
use composing::compose::{LONGEST, compose};
use encoders::letters::Letters;
use kinds::setup::letters;
use scopes::globally::Globally;
use tables::pattern::TablePattern;
use watch::watch::Watch;

// Never D: state 0 accepts, and a letter with D leads to state 1, which rejects for good.
static NEVER: [u8; 20] = [
    2, 1, 0, 3, //
    0, 1, 0, 1, 0, 1, 0, 1, //
    1, 1, 1, 1, 1, 1, 1, 1,
];

// Between B and T: state 1 is inside, and what is added to a state marks the letter, 64 as in.
static BETWEEN: [u8; 20] = [
    2, 0, 0, 3, //
    0, 0, 65, 65, 0, 0, 0, 0, //
    65, 65, 65, 65, 0, 0, 0, 0,
];

// Judges two records by a pattern table.
fn tell_table(rt: &HostRuntime, table: &[u8], letters: Letters) -> Result<(), Trouble> {
    let mut pattern = TablePattern::new();
    pattern.load(table)?;
    let mut watch = Watch::new(letters, Globally::new(), pattern);
    tell_feeding(rt, &mut watch, &[0, 2, 1, 4])?;
    tell_record(rt, &mut watch, &[0, 2, 0, 4])?;
    Ok(())
}

pub fn tell(rt: &HostRuntime) -> Result<(), Trouble> {
    println!(rt; "Never D between B and T, by composed tables")?;
    // composing takes no heap, and writes into room that it is given
    let mut room = [0u8; LONGEST];
    let length = compose(&NEVER, &BETWEEN, &mut room)?;
    println!(rt; "  composed: {length} bytes, {} states", room[0])?;
    tell_table(rt, &room[0..length], letters(3)?)
}

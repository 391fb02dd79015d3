// Reads a pattern table, a scope table and a record of letters, and prints whether the record keeps the rule.

#![tactic(auto)]

use composing::compose::LONGEST;
use framing::reading::read_input;
use judging::line::{LINE_ROOM, judge_line};
use std::io;
use std::io::Write;

fn main(rt: HostRuntime) -> io::Result<()> {
    let input = read_input(rt.alloc(), rt.stdin())?;
    // the library has no heap: it writes into these two, and says how long the line is
    let mut scratch = vec![in rt.alloc(); 0u8; LONGEST]?;
    let mut line = [0u8; LINE_ROOM];
    match judge_line(input.as_slice(), scratch.as_mut_slice(), &mut line) {
        Ok(len) => rt.stdout().write_all(&line[0..len]),
        // the only fault is a line too short, and this one is as long as it must be
        Err(_) => Ok(()),
    }
}

// Reads a pattern table and a scope table, with their lengths, and says what they are found to be.

#![tactic(auto)]

use framing::reading::read_input;
use inspect::report::report;
use std::io;

fn main(rt: HostRuntime) -> io::Result<()> {
    let input = read_input(rt.alloc(), rt.stdin())?;
    let text = report(rt.alloc(), input.as_slice())?;
    rt.print(text.as_str())
}

// The words of a break and a restart, judged by each of the ten patterns that have a published formula.

#![tactic(auto)]

use formulas::judging::judge_named;
use formulas::laws::formulas_stand;
use formulas::named::NamedPattern;
use std::io;

// Conditions have only numbers in the library: each program names its own.

// D, the dryer is driven
const DRIVEN: u8 = 0;

// B, the sheet breaks
const BREAK: u8 = 1;

// T, the tail is threaded
const THREADED: u8 = 2;

// The ten patterns that have a published formula, over D, B and T.
// A name beside each and no `Display`: a pattern knows its conditions by number, and these letters are ours.
static NAMED: [(&str, NamedPattern); 10] = [
    ("always D", NamedPattern::Always { p: DRIVEN }),
    ("never D", NamedPattern::Never { p: DRIVEN }),
    ("eventually D", NamedPattern::Eventually { p: DRIVEN }),
    (
        "eventually D at most 2 times",
        NamedPattern::AtMostTwice { p: DRIVEN },
    ),
    (
        "B precedes D",
        NamedPattern::Precedes {
            p: BREAK,
            s: DRIVEN,
        },
    ),
    (
        "(B, T) precedes D",
        NamedPattern::PairPrecedes {
            p1: BREAK,
            p2: THREADED,
            s: DRIVEN,
        },
    ),
    (
        "B precedes (D, T)",
        NamedPattern::PrecedesPair {
            p: BREAK,
            s1: DRIVEN,
            s2: THREADED,
        },
    ),
    (
        "T responds to B",
        NamedPattern::Responds {
            p: BREAK,
            s: THREADED,
        },
    ),
    (
        "(T, D) responds to B",
        NamedPattern::PairResponds {
            p: BREAK,
            s1: THREADED,
            s2: DRIVEN,
        },
    ),
    (
        "T responds to (B, D)",
        NamedPattern::RespondsToPair {
            p1: BREAK,
            p2: DRIVEN,
            s: THREADED,
        },
    ),
];

fn main(rt: HostRuntime) -> io::Result<()> {
    // That the patterns agree with their formulas is proved with this call; it has nothing to do.
    let _ = formulas_stand();
    let words = [0, 2, 1, 4];
    println!(rt; "By name, on {words:?}")?;
    for (name, pattern) in NAMED.iter() {
        match judge_named(*pattern, &words) {
            Ok(true) => println!(rt; "  {name}: yes")?,
            Ok(false) => println!(rt; "  {name}: no")?,
            Err(refusal) => println!(rt; "  {name}: refused with {}", refusal.number())?,
        }
    }
    Ok(())
}

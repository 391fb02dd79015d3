// Shows what is said of one bad table of every kind, and of inputs that hold no two tables.

#![tactic(auto)]

use inspect::report::{TableLine, report};
use std::alloc::AllocError;
use std::io;
use table_format::kind::Kind;

struct Case {
    what: &'static str,
    bytes: &'static [u8],
}

static PATTERNS: [Case; 9] = [
    Case {
        what: "no byte at all",
        bytes: &[],
    },
    Case {
        what: "no state",
        bytes: &[0],
    },
    Case {
        what: "251 states",
        bytes: &[251],
    },
    Case {
        what: "ends before the width",
        bytes: &[2, 1, 2],
    },
    Case {
        what: "a flag of 2",
        bytes: &[2, 1, 2, 7],
    },
    Case {
        what: "a width of 7",
        bytes: &[2, 1, 0, 7],
    },
    Case {
        what: "one entry short",
        bytes: &[2, 1, 0, 1, 0, 1, 2],
    },
    Case {
        what: "one byte over",
        bytes: &[2, 1, 0, 1, 0, 1, 1, 0, 0],
    },
    Case {
        what: "an entry of 2 for two states",
        bytes: &[2, 1, 0, 1, 0, 1, 2, 1],
    },
];

static SCOPES: [Case; 4] = [
    Case {
        what: "9 states",
        bytes: &[9],
    },
    Case {
        what: "a flag of 255",
        bytes: &[1, 255, 0, 0],
    },
    Case {
        what: "mark last, but state 2 of two",
        bytes: &[2, 1, 0, 1, 0, 65, 130, 192],
    },
    Case {
        what: "all four marks, good",
        bytes: &[2, 1, 0, 1, 0, 65, 129, 192],
    },
];

fn show(rt: &HostRuntime, kind: Kind, cases: &[Case]) -> io::Result<()> {
    for case in cases {
        let what = case.what;
        let line = TableLine::of(kind, case.bytes);
        println!(rt; "{what} -> {line}")?;
    }
    Ok(())
}

fn show_input(rt: &HostRuntime, what: &str, input: &[u8]) -> io::Result<()> {
    let text = report(rt.alloc(), input)?;
    print!(rt; "{what} -> {text}")
}

// Two lengths of 0 and then zeros, to as many bytes.
fn zeros(rt: &HostRuntime, len: usize) -> Result<Vec<u8>, AllocError> {
    vec![in rt.alloc(); 0u8; len]
}

fn main(rt: HostRuntime) -> io::Result<()> {
    show(&rt, Kind::Pattern, &PATTERNS)?;
    show(&rt, Kind::Scope, &SCOPES)?;
    show_input(&rt, "a length cut short", &[0, 0, 0])?;
    show_input(&rt, "a table cut short", &[0, 0, 0, 4, 1, 1, 0])?;
    show_input(&rt, "no second length", &[0, 0, 0, 4, 1, 1, 0, 0, 0])?;
    let most = zeros(&rt, 60_000)?;
    show_input(&rt, "60000 bytes", most.as_slice())?;
    let over = zeros(&rt, 60_001)?;
    show_input(&rt, "60001 bytes", over.as_slice())
}

ghost use Rattle.std.specs.Prelude.{◌≡◌, Some, Ok, Err, IfOk, length, string_bytes};
ghost use Rattle.framing.specs.Framed.{framed};
ghost use Rattle.inspect.specs.Found.{found};
ghost use Rattle.inspect.specs.Texts.{finding_text, line_text, report_text};

use crate::finding::{Extent, Finding, finding_of};
use framing::{InputFault, Tables, tables_of};
use std::alloc::{AllocError, Global};
use std::fmt;
use table_format::kind::Kind;

// One table's line.
#[derive(Clone, Copy)]
pub struct TableLine {
    kind: Kind,
    len: usize,
    finding: Finding,
}

impl TableLine {
    pub fn of(kind: Kind, bytes: &[u8]) -> TableLine
        ensures { result ≡ record { kind = kind; len = length bytes.now; finding = found kind bytes.now } }
    {
        TableLine {
            kind,
            len: bytes.len(),
            finding: finding_of(kind, bytes),
        }
    }
}

impl fmt::Display for TableLine {
    ghost output = { λ line. Some (line_text line.kind line.len line.finding) };

    fn fmt<W: fmt::Write>(&self, f: &mut fmt::Formatter<W>) -> fmt::Result {
        write!(
            f,
            "{}, length {}: {}",
            self.kind,
            self.len,
            Told(self.finding)
        )
    }
}

// How a finding reads: a type of its own, since `Finding` is a `Result`.
#[derive(Clone, Copy)]
struct Told(Finding);

impl fmt::Display for Told {
    ghost output = { λ told. Some (finding_text told.0) };

    fn fmt<W: fmt::Write>(&self, f: &mut fmt::Formatter<W>) -> fmt::Result {
        match self.0 {
            Ok(Extent { states, width }) => write!(f, "good, states {states}, width {width}"),
            Err(fault) => write!(f, "refused {}, {fault}", fault.number()),
        }
    }
}

// The lines for a program's input: one for each table, or one that says why it holds no two tables.
pub fn report(heap: Global, input: &[u8]) -> Result<String, AllocError>
    ensures { IfOk result (λ text. string_bytes text ≡ report_text (framed input.now)) }
{
    match tables_of(input) {
        Ok(tables) => tables_report(heap, tables),
        Err(fault) => input_report(heap, fault),
    }
}

fn tables_report(heap: Global, tables: Tables<'_>) -> Result<String, AllocError>
    ensures { IfOk result (λ text. string_bytes text ≡ report_text (Ok (tables.entry.pattern.now, tables.entry.scope.now, tables.entry.after.now))) }
{
    let pattern = TableLine::of(Kind::Pattern, tables.pattern);
    let scope = TableLine::of(Kind::Scope, tables.scope);
    let after = tables.after.len();
    if after == 0 {
        format!(in heap; "{pattern}\n{scope}\n")
    } else {
        format!(in heap; "{pattern}\n{scope}\nafter the tables, length {after}: not looked at\n")
    }
}

fn input_report(heap: Global, fault: InputFault) -> Result<String, AllocError>
    ensures { IfOk result (λ text. string_bytes text ≡ report_text (Err fault)) }
{
    format!(in heap; "input: refused {}, {fault}\n", fault.number())
}

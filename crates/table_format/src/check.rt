ghost use Rattle.std.specs.Prelude.{◌≡◌, ℕ, ◌+◌, ◌≤◌, nat_lt, nat_le, position, Bool, length, is_ok, IfOk, IfErr, Decides};
ghost use Rattle.std.specs.Result.{result_err};
ghost use Rattle.std.specs.List.{prefix_len};
ghost use Rattle.table_format.specs.Checked.{flag_fine, entry_fine, head_fault, body_fault, checked};
ghost use Rattle.table_format.specs.Layout.{target, states_of};
ghost use Rattle.table_format.specs.Lawful.{Lawful, Blames};

use crate::fault::TableFault;
use crate::kind::Kind;

const WIDEST: u8 = 6;

fn first_bad_flag(flags: &[u8]) -> Option<usize>
    ensures { result ≡ position (λ f. nat_lt 1 f) flags.now }
{
    flags.iter().position(|flag| *flag > 1)
}

fn first_bad_entry(kind: Kind, states: u8, entries: &[u8]) -> Option<usize>
    ensures { result ≡ position (λ e. nat_le states (target kind e)) entries.now }
{
    entries
        .iter()
        .position(|entry| kind.next_state(*entry) >= states)
}

// Looks at the bytes in the order of the format, and stops at the first thing that is wrong. Apart from `check`,
// whose other clauses are laws that follow from this one alone.
fn examine(kind: Kind, bytes: &[u8]) -> Result<(), TableFault>
    ensures { result_err result ≡ checked kind bytes.now }
{
    let [n, rest @ ..] = bytes else {
        return Err(TableFault::Length);
    };
    if *n == 0 || *n > kind.most_states() {
        return Err(TableFault::States);
    }
    let states = *n as usize; // by `as`: with `From` the answers did not check
    let Some((flags, [width, entries @ ..])) = rest.split_at_checked(states) else {
        return Err(TableFault::Length);
    };
    if let Some(at) = first_bad_flag(flags) {
        return Err(TableFault::Flag(1 + at));
    }
    if *width > WIDEST {
        return Err(TableFault::Width(1 + states));
    }
    let rows = states << *width;
    if entries.len() != rows {
        return Err(TableFault::Length);
    }
    match first_bad_entry(kind, *n, entries) {
        Some(at) => Err(TableFault::Entry(2 + states + at)),
        None => Ok(()),
    }
}

// Whether the bytes are a lawful table of the kind: it succeeds exactly on lawful tables, and a fault
// names the first thing that is wrong. Kind and bytes come apart: together they are a `Table`, once checked.
pub fn check(kind: Kind, bytes: &[u8]) -> Result<(), TableFault>
    ensures says { result_err result ≡ checked kind bytes.now }
    ensures lawful { Decides (is_ok result) (Lawful kind bytes.now) }
    ensures blames { IfErr result (Blames kind bytes.now) }
{
    examine(kind, bytes)
}

// Runs the library beside the second implementation, and says how often and where they differ.

#![tactic(auto)]

mod called;
mod coded;
mod dice;
mod full;
mod library;
mod reply;
mod set;
mod supply;
mod tabled;
mod tally;
mod worked;

use crate::tally::{Family, Tally};
use std::alloc::Global;
use std::io;

// How many cases there were, and how many of them differed.
#[derive(Clone, Copy, Default)]
struct Sum {
    cases: usize,
    differing: usize,
}

impl Sum {
    fn add(&mut self, rt: &HostRuntime, name: &str, tally: Tally) -> io::Result<()> {
        println!(rt; "{name}: {tally}")?;
        self.cases = self.cases.saturating_add(tally.cases());
        self.differing = self.differing.saturating_add(tally.differing());
        Ok(())
    }
}

fn compare_kinds(rt: &HostRuntime, heap: Global, sum: &mut Sum) -> io::Result<()> {
    let encoders = Family::new(heap, 1).compared(60_000, |family, _| coded::compare(family))?;
    sum.add(rt, "encoders", encoders)?;
    let scopes = Family::new(heap, 4).compared(60_000, |family, _| set::compare_scope(family))?;
    sum.add(rt, "scopes", scopes)?;
    let patterns = Family::new(heap, 3).compared(
        100_000,
        |family, _| set::compare_pattern(family),
    )?;
    sum.add(rt, "patterns", patterns)
}

fn compare_watches(rt: &HostRuntime, heap: Global, sum: &mut Sum) -> io::Result<()> {
    sum.add(rt, "worked examples, put to each", worked::examples(heap)?)?;
    let runs = Family::new(heap, 2).compared(
        400_000,
        |family, case| called::compare_run(family, case % 9),
    )?;
    sum.add(rt, "runs", runs)?;
    sum.add(rt, "full watches", full::watches(heap)?)
}

fn compare_tables(rt: &HostRuntime, heap: Global, sum: &mut Sum) -> io::Result<()> {
    let checks = Family::new(heap, 5).compared(60_000, |family, _| tabled::check_both(family))?;
    sum.add(rt, "tables checked", checks)?;
    let composed = Family::new(heap, 6).compared(30_000, |family, _| tabled::compose_both(family))?;
    sum.add(rt, "tables composed", composed)?;
    let lines = Family::new(heap, 7).compared(30_000, |family, _| tabled::judge_both(family))?;
    sum.add(rt, "inputs judged", lines)
}

fn main(rt: HostRuntime) -> io::Result<()> {
    let heap = rt.alloc();
    let mut sum = Sum::default();
    compare_kinds(&rt, heap, &mut sum)?;
    compare_watches(&rt, heap, &mut sum)?;
    compare_tables(&rt, heap, &mut sum)?;
    println!(rt; "in all: {} cases, {} different", sum.cases, sum.differing)
}

// A sheet breaks and the dryer is restarted mid-break: the record of it is judged in several ways.

#![tactic(auto)]

mod nested;
mod rule;
mod tabled;
mod telling;
mod trouble;
mod watched;
mod worked;

use crate::trouble::Trouble;
use chains::laws::chains_stand;
use examples::examples_stand;
use patterns::laws::counts_stand;
use std::process::ExitCode;

fn tell(rt: &HostRuntime) -> Result<(), Trouble> {
    watched::tell(rt)?;
    nested::tell(rt)?;
    tabled::tell(rt)?;
    worked::tell(rt)
}

fn main(rt: HostRuntime) -> ExitCode {
    // What the patterns mean, and the worked examples, are proved with these calls; they have nothing to do.
    let _ = counts_stand();
    let _ = chains_stand();
    let _ = examples_stand();
    match tell(&rt) {
        Ok(()) => ExitCode::SUCCESS,
        Err(trouble) => {
            let _ = eprintln!(rt; "{trouble}");
            ExitCode::FAILURE
        }
    }
}

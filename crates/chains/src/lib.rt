// Patterns over chains of conditions: one chain precedes another, and one responds to another.

#![tactic(auto)]

pub mod chain;
pub mod laws;
mod openings;
pub mod precedes;
pub mod responds;

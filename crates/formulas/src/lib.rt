// The named patterns that have a published formula of temporal logic, and their agreement with it.

#![tactic(auto)]

pub mod judging;
pub mod laws;
pub mod named;

// A stranger's encoder, scope and pattern. They are proved by the traits alone, and have every law from there.

#![tactic(auto)]

pub mod batches;
pub mod gauge;
pub mod laws;
pub mod pairs;

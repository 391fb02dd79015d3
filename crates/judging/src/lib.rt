// Judging a record of letters by two tables, and telling the outcome in one line.

#![tactic(auto)]

pub mod fault;
pub mod judge;
pub mod line;

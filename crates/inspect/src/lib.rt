// What a mill's tables are found to be, in plain words.

#![tactic(auto)]

pub mod finding;
pub mod report;

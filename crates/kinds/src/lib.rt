// Kinds as a program wants them that reads its rules from somewhere: set up in one call, and chosen when it runs.

#![tactic(auto)]

pub mod choice;
pub mod setup;

// Lawful tables, and the patterns and scopes that they are.

#![tactic(auto)]

pub mod mark;
pub mod pattern;
pub mod scope;
pub mod table;
mod walk;

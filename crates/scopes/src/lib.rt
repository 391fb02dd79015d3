// The scopes: which words of a list belong to a stretch.

#![tactic(auto)]

pub mod after;
pub mod after_unless;
pub mod before;
pub mod between;
pub mod globally;
pub mod laws;
pub mod side;
pub mod span;

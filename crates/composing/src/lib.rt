// Composing a scope table with a pattern table: one pattern table that judges as the scope over the pattern does.

#![tactic(auto)]

pub mod compose;
mod composer;
pub mod fault;
mod place;

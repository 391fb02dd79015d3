// Scopes over patterns, which are patterns again.

#![tactic(auto)]

pub mod judging;
pub mod over;

// What every encoder, scope and pattern is, and what they share: conditions, marks and refusals.

#![tactic(auto)]

pub mod condition;
pub mod encoder;
pub mod few;
pub mod mark;
pub mod pattern;
pub mod refusal;
pub mod scope;

// Encoders: from a part of a record's bytes to a word of 16 conditions.

#![tactic(auto)]

mod conditions;
pub mod contacts;
pub mod laws;
pub mod letters;
pub mod moisture;
mod term;
mod width;

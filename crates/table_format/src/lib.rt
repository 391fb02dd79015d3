// The format of pattern tables and scope tables: what a lawful one is, and checking one.

#![tactic(auto)]

pub mod check;
pub mod fault;
pub mod kind;

// A watch takes a record sample by sample and tells whether it keeps a rule.

#![tactic(auto)]

pub mod fault;
pub mod making;
pub mod watch;

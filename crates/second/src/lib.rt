// A second implementation of the rules by another road, which takes its time: it keeps whole lists, tries all places,
// and works every answer out anew. The program `beside` compares it with the library.

#![tactic(auto)]

pub mod chains;
pub mod coding;
mod counted;
pub mod line;
pub mod pattern;
pub mod refusal;
pub mod rule;
pub mod scope;
pub mod table;
pub mod text;
pub mod watch;
mod words;

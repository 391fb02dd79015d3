// The plain patterns (always, never) and the counting ones (eventually, precisely).

#![tactic(auto)]

pub mod always;
mod counter;
pub mod counting;
pub mod eventually;
pub mod form;
pub mod laws;
pub mod never;
pub mod precisely;
mod quota;
pub mod throughout;

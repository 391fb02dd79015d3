use crate::side::Side;

// After Q: the first word with Q and all that follow, to wherever the list ends.
pub type After = Side<true>;

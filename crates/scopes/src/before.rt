use crate::side::Side;

// Before R: the words up to the first with R, which is out; where none comes there is no stretch.
pub type Before = Side<false>;

use crate::counting::Counting;

// Precisely P, so many times: counts all places with P.
pub type Precisely = Counting<false>;

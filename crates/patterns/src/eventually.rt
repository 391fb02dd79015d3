use crate::counting::Counting;

// Eventually P, so many times: counts how often P comes up, that is, the places with P whose word before, if any,
// has it not.
pub type Eventually = Counting<true>;

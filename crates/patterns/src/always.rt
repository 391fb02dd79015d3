use crate::throughout::Throughout;

// Always P: every word has P.
pub type Always = Throughout<true>;

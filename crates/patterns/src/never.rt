use crate::throughout::Throughout;

// Never P: no word has P.
pub type Never = Throughout<false>;

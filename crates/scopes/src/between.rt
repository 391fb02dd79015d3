use crate::span::Span;

// Between Q and R: a stretch begins at a word with Q and not R, and ends before the next word with R; one
// that nothing closes does not count.
pub type Between = Span<false>;

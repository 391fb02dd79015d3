use crate::span::Span;

// After Q unless R: the stretches of between Q and R, and also one that nothing closes.
pub type AfterUnless = Span<true>;

pub mod choosing;

// One of two kinds. Choices nest, so that a pattern can be one of many kinds. An enum and no boxed `dyn`, since a
// library takes no heap; and no `Either` from outside, to which only rules could give its traits.
#[derive(Clone, Copy, Drop)]
pub enum Choice<A, B> {
    First(A),
    Second(B),
}

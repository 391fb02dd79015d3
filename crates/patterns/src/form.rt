// How a number of places has to compare with the number of times that is asked. The crate `second` writes its own,
// so that a slip here is not repeated there.
#[derive(Clone, Copy, PartialEq, Eq, Debug)]
pub enum Form {
    Exactly,
    AtLeast,
    AtMost,
}

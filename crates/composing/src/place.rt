// A state of a composed table: a stretch was rejected; a scope's state with no stretch open; or a scope's
// state with the pattern's state in the open stretch.
#[derive(Clone, Copy)]
pub enum Place {
    Failed,
    Outside(usize),
    Inside(usize, usize),
}

use crate::refusal::Why;

// The number in the first four bytes, the highest first, and what follows them.
// Worked out by hand: the library reads them in one call, and this is to be another road.
pub fn counted(bytes: &[u8]) -> Result<(usize, &[u8]), Why> {
    let [a, b, c, d, rest @ ..] = bytes else {
        return Err(Why::Framing);
    };
    let mut count: usize = 0;
    for byte in [*a, *b, *c, *d] {
        count = count.saturating_mul(256).saturating_add(usize::from(byte));
    }
    Ok((count, rest))
}

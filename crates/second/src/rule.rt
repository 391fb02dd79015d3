use crate::pattern::PatternText;
use crate::scope::ScopeText;
use crate::text::Text;
use std::alloc::{AllocError, Global};

// Whether the pattern accepts each judged stretch, where the scopes are one in another, the outermost first:
// each cuts the stretches of the one before it.
pub fn try_keeps(
    heap: Global,
    scopes: &[ScopeText<'_>],
    pattern: &PatternText<'_>,
    words: &[u16],
) -> Result<bool, AllocError> {
    // Loops: a chain of lists in lists would be no plainer.
    let mut stretches = vec![in heap; words]?;
    for scope in scopes {
        let mut cut = Vec::new(heap);
        for stretch in stretches.iter() {
            cut.extend(scope.try_judged(heap, stretch)?)?;
        }
        stretches = cut;
    }
    Ok(stretches.iter().all(|stretch| pattern.says(stretch)))
}

// The same, with no for an answer that there is no memory to work out.
pub fn keeps(
    heap: Global,
    scopes: &[ScopeText<'_>],
    pattern: &PatternText<'_>,
    words: &[u16],
) -> bool {
    try_keeps(heap, scopes, pattern, words).unwrap_or(false)
}

use crate::words::has;

// The chain's conditions hold in turn at rising places, of which the first is the list's first place and the final one
// its last.
pub fn spans(chain: &[u8], words: &[u16]) -> bool {
    let (Some((condition, others)), Some((word, rest))) = (chain.split_first(), words.split_first())
    else {
        return false;
    };
    if !has(*word, *condition) {
        return false;
    }
    if others.is_empty() {
        return rest.is_empty();
    }
    // A loop and no `any`: called from its closure, the function would need two measures more to be shown ending.
    for at in 0..rest.len() {
        if spans(others, &rest[at..]) {
            return true;
        }
    }
    false
}

// What begins at the earliest place at which the chain can be complete, where it begins at the list's first place.
pub fn completed<'a>(chain: &[u8], words: &'a [u16]) -> Option<&'a [u16]> {
    let place = (0..words.len()).find(|last| {
        words.get(..=*last).is_some_and(|front| spans(chain, front))
    })?;
    words.get(place..)
}

// The chain occurs somewhere in the list.
pub fn occurs(chain: &[u8], words: &[u16]) -> bool {
    (0..words.len()).any(|first| {
        words
            .get(first..)
            .is_some_and(|rest| completed(chain, rest).is_some())
    })
}

// The word in which one condition holds. A word has 16 of them.
pub fn bit(condition: u8) -> u16 {
    1u16.checked_shl(u32::from(condition)).unwrap_or(0)
}

pub fn has(word: u16, condition: u8) -> bool {
    word & bit(condition) != 0
}

// Some word of the list has the condition.
pub fn any_has(words: &[u16], condition: u8) -> bool {
    words.iter().any(|word| has(*word, condition))
}

// How many words of the list have the condition.
pub fn count_of(words: &[u16], condition: u8) -> usize {
    words.iter().filter(|word| has(**word, condition)).count()
}

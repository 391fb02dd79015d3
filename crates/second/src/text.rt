use crate::refusal::Refusal;
use rules::mark::Mark;
use std::alloc::{AllocError, AllocFailed, Global};

// A pattern or a scope with its settings, in the words of the rules.
pub trait Text: Copy {
    // Refuses settings that are not taken.
    fn check(&self) -> Result<(), Refusal>;

    // One of the kind and the form, before anything is set.
    fn unset(self) -> Self;

    // The text once the settings of another of its kind were put to it; or none, where that does not start it.
    // No Result with the refusal in it: settings that are refused may change the text all the same.
    fn given(self, other: Self) -> Option<Self>;

    // What the final word of a list is marked as, where words are marked.
    fn mark(&self, words: &[u16]) -> Option<Mark>;

    // The verdict or the answer after a list.
    fn says(&self, words: &[u16]) -> bool;

    // A new one of the kind, given these settings.
    fn held(self) -> Self {
        self.unset().given(self).unwrap_or(self.unset())
    }
}

// A pattern or a scope at work, which keeps all words since it started.
#[derive(Drop)]
pub struct Reader<T> {
    text: T,
    words: Vec<u16>,
}

impl<T: Text> Reader<T> {
    pub fn new(heap: Global, text: T) -> Reader<T> {
        Reader {
            text: text.unset(),
            words: Vec::new(heap),
        }
    }

    pub fn set(&mut self, text: T) -> Result<(), Refusal> {
        if let Some(given) = self.text.given(text) {
            self.text = given;
            self.start();
        }
        text.check()
    }

    pub fn start(&mut self) {
        self.words.clear();
    }

    // Reads a word, and gives its mark, where words are marked.
    pub fn read(&mut self, word: u16) -> Result<Option<Mark>, AllocError> {
        self.words.push(word)?;
        Ok(self.text.mark(&self.words))
    }

    pub fn says(&self) -> bool {
        self.text.says(&self.words)
    }
}

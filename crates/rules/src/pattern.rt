ghost use Rattle.std.specs.Prelude.{◌≡◌, ℕ, Bool, List, [], ◌∷◌};

// A pattern accepts or rejects lists of words, of whatever length.
//
// `meaning` says which lists are accepted, and no call changes it. `rest` says of the words that may still
// come whether the words read since the start, followed by these, are accepted. It speaks of every list
// that may come, so what a pattern holds fixes all its later verdicts.
pub trait Pattern {
    ghost meaning: { Self → List ℕ → Bool };

    ghost rest: { Self → List ℕ → Bool };

    // Goes back to the empty list.
    fn start(&mut self)
        ensures kept { meaning self.new ≡ meaning self.old }
        ensures fresh { rest self.new ≡ meaning self.old };

    // Appends a word to the list.
    fn read(&mut self, word: u16)
        ensures kept { meaning self.new ≡ meaning self.old }
        ensures step { (l : List ℕ) → rest self.new l ≡ rest self.old (word ∷ l) };

    // Whether what has been read since the start is accepted.
    fn verdict(&self) -> bool
        ensures { result ≡ rest self.now [] };
}

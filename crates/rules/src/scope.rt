ghost use Rattle.std.specs.Prelude.{◌≡◌, ℕ, Bool, List, [], ◌∷◌};
ghost use Rattle.rules.specs.declared.mark.Mark.{Mark as MarkOf};

use crate::mark::Mark;

// A scope gives each word of a list a mark, and says yes or no after the list.
//
// `marks l w` is the mark of a word w that comes after the words l, so a mark depends on its word and the
// words before it alone; `answers l` is the yes or no after l. No call changes the two. `rest_marks` and
// `rest_answers` say the same of the words that may still come.
pub trait Scope {
    ghost marks: { Self → List ℕ → ℕ → MarkOf };

    ghost answers: { Self → List ℕ → Bool };

    ghost rest_marks: { Self → List ℕ → ℕ → MarkOf };

    ghost rest_answers: { Self → List ℕ → Bool };

    // Goes back to the empty list.
    fn start(&mut self)
        ensures kept { (marks self.new ≡ marks self.old) × (answers self.new ≡ answers self.old) }
        ensures fresh { (rest_marks self.new ≡ marks self.old) × (rest_answers self.new ≡ answers self.old) };

    // Appends a word to the list, and gives its mark.
    fn mark(&mut self, word: u16) -> Mark
        ensures kept { (marks self.new ≡ marks self.old) × (answers self.new ≡ answers self.old) }
        ensures given { result ≡ rest_marks self.old [] word }
        ensures step { ((l : List ℕ) (w : ℕ) → rest_marks self.new l w ≡ rest_marks self.old (word ∷ l) w) × ((l : List ℕ) → rest_answers self.new l ≡ rest_answers self.old (word ∷ l)) };

    // The yes or no after the list.
    fn answer(&self) -> bool
        ensures { result ≡ rest_answers self.now [] };
}

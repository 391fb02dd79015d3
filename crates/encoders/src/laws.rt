ghost use Rattle.encoders.specs.Laws.{ContactWords, EventWords, SixteenLists, ContactExamples, EventExamples};

// What every word is, in the conditions' own terms: the contract is the theorem, and the answer says nothing.
// Each crate has its own such function, since a theorem stands beside what it speaks of; callers have a number of each.
pub fn words_stand() -> u8
    ensures contacts { ContactWords }
    ensures events { EventWords }
    ensures sixteen { SixteenLists }
    ensures masks { ContactExamples }
    ensures readings { EventExamples }
{
    0
}

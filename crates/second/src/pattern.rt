use crate::chains::{completed, occurs};
use crate::refusal::{Refusal, Why};
use crate::table::TableText;
use crate::text::Text;
use crate::words::{any_has, count_of, has};
use rules::mark::Mark;

// Forms of its own: of the library, this crate takes only the marks.
#[derive(Clone, Copy, Debug)]
pub enum Form {
    Exactly,
    AtLeast,
    AtMost,
}

// How many are asked for.
#[derive(Clone, Copy, Debug)]
pub struct Times {
    pub form: Form,
    pub number: u16,
}

impl Times {
    // Three comparisons: what `cmp` gives would be matched with the form all the same.
    fn suits(self, count: usize) -> bool {
        let number = usize::from(self.number);
        match self.form {
            Form::Exactly => count == number,
            Form::AtLeast => count >= number,
            Form::AtMost => count <= number,
        }
    }

    // The same form, so many times.
    fn with(self, number: u16) -> Times {
        Times { number, ..self }
    }
}

// A pattern with its settings, in the words of the rules.
// Eventually and Precisely apart, though much alike: each pattern that the rules name is a variant with that name.
#[derive(Clone, Copy, Debug)]
pub enum PatternText<'a> {
    Always(u8),
    Never(u8),
    Eventually(Times, u8),
    Precisely(Times, u8),
    // the first chain precedes the second
    Precedes(&'a [u8], &'a [u8]),
    // the second chain responds to the first
    Responds(&'a [u8], &'a [u8]),
    Table(TableText<'a>),
}

// How many words have the condition where the word before has not.
fn count_rises(words: &[u16], condition: u8) -> usize {
    let first = count_of(words.get(..1).unwrap_or(&[]), condition);
    let later = words
        .windows(2)
        .filter(|pair| match pair {
            [before, word] => has(*word, condition) && !has(*before, condition),
            _ => false,
        })
        .count();
    first.saturating_add(later)
}

fn precedes(first: &[u8], second: &[u8], words: &[u16]) -> bool {
    if !occurs(second, words) {
        return true;
    }
    // The first chain is to be complete where the second one can first begin.
    let begin = second
        .first()
        .and_then(|begin| words.iter().position(|word| has(*word, *begin)));
    begin
        .and_then(|place| words.get(..=place))
        .is_some_and(|front| occurs(first, front))
}

fn responds(stimulus: &[u8], response: &[u8], words: &[u16]) -> bool {
    (0..words.len())
        .filter_map(|opening| completed(stimulus, words.get(opening..)?))
        .all(|rest| occurs(response, rest))
}

fn is_chain(chain: &[u8]) -> bool {
    !chain.is_empty() && chain.len() <= 4 && chain.iter().all(|condition| *condition <= 15)
}

impl<'a> PatternText<'a> {
    // The bytes of a table's pattern, and none of another kind's.
    pub fn table(self) -> &'a [u8] {
        match self {
            PatternText::Table(table) => table.bytes,
            _ => &[],
        }
    }

    // The settings are in their ranges.
    fn is_in_range(&self) -> bool {
        match *self {
            PatternText::Always(c) | PatternText::Never(c) => c <= 15,
            PatternText::Eventually(_, c) | PatternText::Precisely(_, c) => c <= 15,
            PatternText::Precedes(first, second) => is_chain(first) && is_chain(second),
            PatternText::Responds(stimulus, response) => is_chain(stimulus) && is_chain(response),
            PatternText::Table(_) => true,
        }
    }
}

impl<'a> Text for PatternText<'a> {
    fn check(&self) -> Result<(), Refusal> {
        if let PatternText::Table(table) = self {
            return table.check();
        }
        if !self.is_in_range() {
            return Err(Refusal::from(Why::Range));
        }
        Ok(())
    }

    fn unset(self) -> PatternText<'a> {
        match self {
            PatternText::Always(_) => PatternText::Always(0),
            PatternText::Never(_) => PatternText::Never(0),
            PatternText::Eventually(times, _) => PatternText::Eventually(times.with(0), 0),
            PatternText::Precisely(times, _) => PatternText::Precisely(times.with(0), 0),
            PatternText::Precedes(_, _) => PatternText::Precedes(&[0], &[0]),
            PatternText::Responds(_, _) => PatternText::Responds(&[0], &[0]),
            PatternText::Table(table) => PatternText::Table(table.built_in()),
        }
    }

    // The form stays, and a number of times is taken even where the condition beside it is refused.
    fn given(self, other: PatternText<'a>) -> Option<PatternText<'a>> {
        let taken = other.check().is_ok();
        match (self, other) {
            (PatternText::Eventually(old, c), PatternText::Eventually(times, new)) => {
                let c = if taken { new } else { c };
                Some(PatternText::Eventually(old.with(times.number), c))
            }
            (PatternText::Precisely(old, c), PatternText::Precisely(times, new)) => {
                let c = if taken { new } else { c };
                Some(PatternText::Precisely(old.with(times.number), c))
            }
            _ => { if taken { Some(other) } else { None } }
        }
    }

    // A pattern marks no words.
    fn mark(&self, _words: &[u16]) -> Option<Mark> {
        None
    }

    // Whether the list of words is accepted.
    fn says(&self, words: &[u16]) -> bool {
        match *self {
            PatternText::Always(c) => words.iter().all(|word| has(*word, c)),
            PatternText::Never(c) => !any_has(words, c),
            PatternText::Eventually(times, c) => times.suits(count_rises(words, c)),
            PatternText::Precisely(times, c) => times.suits(count_of(words, c)),
            PatternText::Precedes(first, second) => precedes(first, second, words),
            PatternText::Responds(stimulus, response) => responds(stimulus, response, words),
            PatternText::Table(table) => table.flag(table.state_after(words)),
        }
    }
}

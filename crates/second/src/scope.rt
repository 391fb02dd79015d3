use crate::refusal::{Refusal, Why};
use crate::table::TableText;
use crate::text::Text;
use crate::words::{any_has, has};
use rules::mark::Mark;
use std::alloc::{AllocError, Global};

// A scope with its settings, in the words of the rules.
#[derive(Clone, Copy, Debug)]
pub enum ScopeText<'a> {
    Globally,
    Before(u8),
    After(u8),
    // opened by the first condition and closed by the second
    Between(u8, u8),
    AfterUnless(u8, u8),
    Table(TableText<'a>),
}

// Some word opens, and none from it on closes.
fn is_open(words: &[u16], opening: u8, closing: u8) -> bool {
    words.iter().enumerate().any(|(at, word)| {
        has(*word, opening) && !words.iter().skip(at).any(|later| has(*later, closing))
    })
}

// A function and no `From`: neither type is of this crate.
fn in_if(inside: bool) -> Mark {
    if inside { Mark::In } else { Mark::Out }
}

impl<'a> Text for ScopeText<'a> {
    fn check(&self) -> Result<(), Refusal> {
        let fine = match *self {
            ScopeText::Globally => true,
            ScopeText::Before(c) | ScopeText::After(c) => c <= 15,
            ScopeText::Between(q, r) | ScopeText::AfterUnless(q, r) => q <= 15 && r <= 15,
            ScopeText::Table(table) => return table.check(),
        };
        if fine {
            Ok(())
        } else {
            Err(Refusal::from(Why::Range))
        }
    }

    fn unset(self) -> ScopeText<'a> {
        match self {
            ScopeText::Globally => self,
            ScopeText::Before(_) => ScopeText::Before(0),
            ScopeText::After(_) => ScopeText::After(0),
            ScopeText::Between(_, _) => ScopeText::Between(0, 0),
            ScopeText::AfterUnless(_, _) => ScopeText::AfterUnless(0, 0),
            ScopeText::Table(table) => ScopeText::Table(table.built_in()),
        }
    }

    // Globally has no settings; every other kind starts when it is given some.
    fn given(self, other: ScopeText<'a>) -> Option<ScopeText<'a>> {
        let set = !matches!(other, ScopeText::Globally) && other.check().is_ok();
        if set { Some(other) } else { None }
    }

    fn mark(&self, words: &[u16]) -> Option<Mark> {
        Some(match *self {
            ScopeText::Globally => Mark::In,
            ScopeText::Before(c) => in_if(!any_has(words, c)),
            ScopeText::After(c) => in_if(any_has(words, c)),
            ScopeText::Between(q, r) | ScopeText::AfterUnless(q, r) => in_if(is_open(words, q, r)),
            ScopeText::Table(table) => table.mark(words),
        })
    }

    // The yes or no after the list.
    fn says(&self, words: &[u16]) -> bool {
        match *self {
            ScopeText::Globally | ScopeText::After(_) | ScopeText::AfterUnless(_, _) => true,
            ScopeText::Before(_) | ScopeText::Between(_, _) => false,
            ScopeText::Table(table) => table.flag(table.state_after(words)),
        }
    }
}

impl<'a> ScopeText<'a> {
    // The bytes of a table's scope, and none of another kind's.
    pub fn table(self) -> &'a [u8] {
        match self {
            ScopeText::Table(table) => table.bytes,
            _ => &[],
        }
    }

    // The judged stretches, found by trying all pairs of places.
    // Two loops: a chain of lists in lists would be no plainer.
    pub fn try_judged<'w>(
        &self,
        heap: Global,
        words: &'w [u16],
    ) -> Result<Vec<&'w [u16]>, AllocError> {
        let marks: Vec<Mark> = (0..words.len())
            .filter_map(|at| self.mark(words.get(..=at)?))
            .collect(heap)?;
        let says = self.says(words);
        let mut found = Vec::new(heap);
        for first in 0..marks.len() {
            let (before, from) = marks.split_at(first);
            for last in 0..from.len() {
                let (block, after) = from.split_at(last + 1);
                if is_block(before, block)
                    && (is_closed(block, after) || says && is_unclosed(block, after))
                {
                    found.extend(words.get(first..=first + last))?;
                }
            }
        }
        Ok(found)
    }

    // The same, and none where there is no memory for them.
    pub fn judged<'w>(&self, heap: Global, words: &'w [u16]) -> Vec<&'w [u16]> {
        match self.try_judged(heap, words) {
            Ok(found) => found,
            Err(_) => Vec::new(heap),
        }
    }
}

// A block can begin after the marks before it: with anew, or with in or last where no stretch is open.
fn begins(before: &[Mark], first: Mark) -> bool {
    let shut = matches!(before.last(), None | Some(Mark::Out | Mark::Last));
    match first {
        Mark::Anew => true,
        Mark::In | Mark::Last => shut,
        Mark::Out => false,
    }
}

// The marks are those of a block after the marks before it: none is out, last is the final one at most, and anew the
// first one.
fn is_block(before: &[Mark], marks: &[Mark]) -> bool {
    let begun = marks.first().is_some_and(|first| begins(before, *first));
    begun
        && marks.iter().all(|mark| *mark != Mark::Out)
        && marks.iter().rev().skip(1).all(|mark| *mark != Mark::Last)
        && marks.iter().skip(1).all(|mark| *mark != Mark::Anew)
}

// A block is closed, by its last mark or by the mark after it.
fn is_closed(block: &[Mark], after: &[Mark]) -> bool {
    matches!(block.last(), Some(Mark::Last)) || matches!(after.first(), Some(Mark::Out))
}

// A block is unclosed at the end of the list.
fn is_unclosed(block: &[Mark], after: &[Mark]) -> bool {
    after.is_empty() && !matches!(block.last(), Some(Mark::Last))
}

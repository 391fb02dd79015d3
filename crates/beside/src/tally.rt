use crate::dice::Dice;
use crate::reply::Reply;
use std::alloc::{AllocError, Global};
use std::fmt;

#[derive(Clone, Copy, Default)]
struct Counts {
    cases: usize,
    replies: usize,
    refused: usize,
    yes: usize,
    no: usize,
    differing: usize,
}

// What came out in a family of cases: how many there were, how many replies were compared, and the smallest case in
// which the two implementations differ, if they do anywhere.
#[derive(Drop)]
pub struct Tally {
    heap: Global,
    counts: Counts,
    smallest: Option<Difference>,
}

// A case in which the two differ: its size, and all of it in words.
#[derive(Drop)]
struct Difference {
    size: usize,
    text: String,
}

// A family of cases that is put to both.
#[derive(Drop)]
pub struct Family {
    pub dice: Dice,
    pub tally: Tally,
}

fn raise(count: &mut usize) {
    *count = count.saturating_add(1);
}

impl Counts {
    fn add(&mut self, reply: Reply) {
        raise(&mut self.replies);
        match reply {
            Reply::Refused(_) => raise(&mut self.refused),
            Reply::Judged(true) => raise(&mut self.yes),
            Reply::Judged(false) => raise(&mut self.no),
            _ => {}
        }
    }
}

impl Tally {
    pub fn new(heap: Global) -> Tally {
        Tally {
            heap,
            counts: Counts::default(),
            smallest: None,
        }
    }

    // One case more, with all replies. The smallest one in which the two differ is kept in words.
    pub fn hold<C: fmt::Display + Drop>(
        &mut self,
        size: usize,
        ours: &[Reply],
        theirs: &[Reply],
        case: C,
    ) -> Result<(), AllocError> {
        raise(&mut self.counts.cases);
        for reply in theirs {
            self.counts.add(*reply);
        }
        if ours == theirs {
            return Ok(());
        }
        raise(&mut self.counts.differing);
        if self.is_smallest(size) {
            let text = format!(in self.heap; "{case}: {ours:?}, not {theirs:?}")?;
            self.smallest = Some(Difference { size, text });
        }
        Ok(())
    }

    // Whether a case of this size would be the smallest in which the two differ.
    fn is_smallest(&self, size: usize) -> bool {
        self.smallest.as_ref().is_none_or(|known| size < known.size)
    }

    pub fn cases(&self) -> usize {
        self.counts.cases
    }

    pub fn differing(&self) -> usize {
        self.counts.differing
    }
}

impl fmt::Display for Tally {
    fn fmt<W: fmt::Write>(&self, f: &mut fmt::Formatter<W>) -> fmt::Result {
        let counts = self.counts;
        write!(f, "{} cases, {} replies: ", counts.cases, counts.replies)?;
        write!(f, "{} refusals, ", counts.refused)?;
        write!(f, "{} yes, {} no; ", counts.yes, counts.no)?;
        write!(f, "{} cases different", counts.differing)?;
        match &self.smallest {
            Some(found) => write!(f, "\n  the smallest: {}", found.text.as_str()),
            None => Ok(()),
        }
    }
}

impl Family {
    pub fn new(heap: Global, seed: u64) -> Family {
        Family {
            dice: Dice::new(heap, seed),
            tally: Tally::new(heap),
        }
    }

    // What comes out where so many cases are compared, each by its number.
    pub(crate) fn compared<F: FnMut(&mut Family, usize) -> Result<(), AllocError>>(
        mut self,
        cases: usize,
        mut compare: F,
    ) -> Result<Tally, AllocError>
        requires { F.IsAlwaysCallable compare }
    {
        for case in 0..cases {
            compare(&mut self, case)?;
        }
        Ok(self.tally)
    }
}

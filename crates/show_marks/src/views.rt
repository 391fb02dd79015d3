use kinds::setup;
use rules::mark::Mark;
use rules::refusal::SettingRefusal;
use rules::scope::Scope;
use scopes::after::After;
use scopes::after_unless::AfterUnless;
use scopes::before::Before;
use scopes::between::Between;
use scopes::globally::Globally;
use std::fmt;

// One scope of each kind, side by side: five fields and no list, since each is of another type.
#[derive(Clone, Copy)]
pub struct Views {
    globally: Globally,
    before: Before,
    after: After,
    between: Between,
    unless: AfterUnless,
}

impl Views {
    // Stretches open at one condition and close at the other.
    pub fn new(opening: u8, closing: u8) -> Result<Views, SettingRefusal> {
        Ok(Views {
            globally: Globally::new(),
            before: setup::side(closing)?,
            after: setup::side(opening)?,
            between: setup::span(opening, closing)?,
            unless: setup::span(opening, closing)?,
        })
    }

    // What each scope says of the next word.
    pub fn mark(&mut self, word: u16) -> Marks {
        Marks {
            globally: self.globally.mark(word),
            before: self.before.mark(word),
            after: self.after.mark(word),
            between: self.between.mark(word),
            unless: self.unless.mark(word),
        }
    }
}

// What each scope says of one word. A value, so that a sample's line is written whole, in one go.
#[derive(Clone, Copy)]
pub struct Marks {
    globally: Mark,
    before: Mark,
    after: Mark,
    between: Mark,
    unless: Mark,
}

impl fmt::Display for Marks {
    fn fmt<W: fmt::Write>(&self, f: &mut fmt::Formatter<W>) -> fmt::Result {
        write!(
            f,
            "globally {}, before T {}, after B {}, between B and T {}, after B unless T {}",
            self.globally, self.before, self.after, self.between, self.unless
        )
    }
}

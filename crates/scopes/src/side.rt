ghost use Rattle.std.specs.Prelude.{◌<◌};
ghost use Rattle.rules.specs.Conditions.{IsCondition};
ghost use Rattle.rules.specs.Settings.{IsFreshScope, TakesIfFits};
ghost use Rattle.scopes.specs.Marks.{side_mark, side_mark_from};

use rules::condition::Condition;
use rules::mark::Mark;
use rules::refusal::SettingRefusal;
use rules::scope::Scope;

// One side of the first word with a condition: the words before it, or, AFTER, that word and all that follow.
// Only the latter is a stretch that may run to the end of the list.
#[derive(Clone, Copy)]
pub struct Side<const AFTER: bool> {
    condition: Condition,
    // whether the condition has held of some word so far
    seen: bool,
}

impl<const AFTER: bool> Side<AFTER> {
    pub fn new() -> Side<AFTER>
        ensures { IsFreshScope ⟦<Side<AFTER> as Scope>⟧ result (side_mark AFTER 0) AFTER }
    {
        Side {
            condition: Condition::first(),
            seen: false,
        }
    }

    // Takes the condition by its number, and starts.
    pub fn set_condition(&mut self, condition: u8) -> Result<(), SettingRefusal>
        ensures { TakesIfFits result (IsCondition condition) self.old self.new (IsFreshScope ⟦<Side<AFTER> as Scope>⟧ self.new (side_mark AFTER condition) AFTER) }
    {
        self.condition = Condition::new(condition)?;
        self.seen = false;
        Ok(())
    }
}

impl<const AFTER: bool> Scope for Side<AFTER> {
    ghost marks = { λ s. side_mark AFTER s.condition.number };

    ghost answers = { λ s l. AFTER };

    ghost rest_marks = { λ s. side_mark_from s.seen AFTER s.condition.number };

    ghost rest_answers = { λ s l. AFTER };

    fn start(&mut self) {
        self.seen = false;
    }

    fn mark(&mut self, word: u16) -> Mark {
        self.seen |= self.condition.holds(word);
        if self.seen == AFTER {
            Mark::In
        } else {
            Mark::Out
        }
    }

    fn answer(&self) -> bool {
        AFTER
    }
}

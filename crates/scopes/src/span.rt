ghost use Rattle.std.specs.Prelude.{◌<◌};
ghost use Rattle.rules.specs.Conditions.{IsCondition};
ghost use Rattle.rules.specs.Settings.{IsFreshScope, TakesIfFits};
ghost use Rattle.scopes.specs.Marks.{between_mark, between_mark_from};

use rules::condition::Condition;
use rules::mark::Mark;
use rules::refusal::SettingRefusal;
use rules::scope::Scope;

// The stretches that one condition opens and another closes. UNCLOSED: whether one that nothing closes counts.
#[derive(Clone, Copy)]
pub struct Span<const UNCLOSED: bool> {
    opening: Condition,
    closing: Condition,
    // whether the words so far lead inside a stretch
    inside: bool,
}

impl<const UNCLOSED: bool> Span<UNCLOSED> {
    pub fn new() -> Span<UNCLOSED>
        ensures { IsFreshScope ⟦<Span<UNCLOSED> as Scope>⟧ result (between_mark 0 0) UNCLOSED }
    {
        Span {
            opening: Condition::first(),
            closing: Condition::first(),
            inside: false,
        }
    }

    // Takes the two conditions by their numbers, and starts.
    pub fn set_conditions(&mut self, opening: u8, closing: u8) -> Result<(), SettingRefusal>
        ensures { TakesIfFits result (IsCondition opening × IsCondition closing) self.old self.new (IsFreshScope ⟦<Span<UNCLOSED> as Scope>⟧ self.new (between_mark opening closing) UNCLOSED) }
    {
        let opening = Condition::new(opening)?;
        let closing = Condition::new(closing)?;
        *self = Span {
            opening,
            closing,
            inside: false,
        };
        Ok(())
    }
}

impl<const UNCLOSED: bool> Scope for Span<UNCLOSED> {
    ghost marks = { λ s. between_mark s.opening.number s.closing.number };

    ghost answers = { λ s l. UNCLOSED };

    ghost rest_marks = { λ s. between_mark_from s.inside s.opening.number s.closing.number };

    ghost rest_answers = { λ s l. UNCLOSED };

    fn start(&mut self) {
        self.inside = false;
    }

    // A word that closes is out and opens nothing, whatever else it has.
    fn mark(&mut self, word: u16) -> Mark {
        let opens = self.opening.holds(word);
        let closes = self.closing.holds(word);
        match (self.inside, opens, closes) {
            (false, true, false) => {
                self.inside = true;
                Mark::In
            }
            (false, _, _) => Mark::Out,
            (true, _, true) => {
                self.inside = false;
                Mark::Out
            }
            (true, _, false) => Mark::In,
        }
    }

    fn answer(&self) -> bool {
        UNCLOSED
    }
}

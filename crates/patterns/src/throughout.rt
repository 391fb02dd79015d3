ghost use Rattle.std.specs.Prelude.{◌<◌, ◌&&◌};
ghost use Rattle.patterns.specs.Places.{throughout};
ghost use Rattle.rules.specs.Conditions.{IsCondition};
ghost use Rattle.rules.specs.Settings.{IsFreshPattern, TakesIfFits};

use rules::condition::Condition;
use rules::pattern::Pattern;
use rules::refusal::SettingRefusal;

// If HELD, every word has the condition, and else none has it.
#[derive(Clone, Copy)]
pub struct Throughout<const HELD: bool> {
    condition: Condition,
    // whether the words so far are so
    kept: bool,
}

impl<const HELD: bool> Throughout<HELD> {
    pub fn new() -> Throughout<HELD>
        ensures { IsFreshPattern ⟦<Throughout<HELD> as Pattern>⟧ result (throughout HELD 0) }
    {
        Throughout {
            condition: Condition::first(),
            kept: true,
        }
    }

    // Takes the condition by its number, and starts.
    pub fn set_condition(&mut self, condition: u8) -> Result<(), SettingRefusal>
        ensures { TakesIfFits result (IsCondition condition) self.old self.new (IsFreshPattern ⟦<Throughout<HELD> as Pattern>⟧ self.new (throughout HELD condition)) }
    {
        self.condition = Condition::new(condition)?;
        self.kept = true;
        Ok(())
    }
}

impl<const HELD: bool> Pattern for Throughout<HELD> {
    ghost meaning = { λ p. throughout HELD p.condition.number };

    ghost rest = { λ p l. p.kept && throughout HELD p.condition.number l };

    fn start(&mut self) {
        self.kept = true;
    }

    fn read(&mut self, word: u16) {
        self.kept &= self.condition.holds(word) == HELD;
    }

    fn verdict(&self) -> bool {
        self.kept
    }
}

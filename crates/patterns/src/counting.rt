#![tactic(auto, using(crate::proofs::Counted::places_counted))]

ghost use Rattle.std.specs.Prelude.{◌≡◌, ◌<◌, ℕ, List, ◌∷◌, OnOk};
ghost use Rattle.patterns.specs.Places.{counted};
ghost use Rattle.patterns.specs.Quotas.{Set, accepted, counted_rest};
ghost use Rattle.rules.specs.Conditions.{IsCondition};
ghost use Rattle.rules.specs.Settings.{IsFreshPattern, TakesIfFits};

use crate::counter::Counter;
use crate::form::Form;
use crate::quota::Quota;
use rules::condition::Condition;
use rules::pattern::Pattern;
use rules::refusal::SettingRefusal;

// The places with the condition are as many as asked. If RISES, only those count whose word before, if any, has
// it not.
#[derive(Clone, Copy)]
pub struct Counting<const RISES: bool> {
    quota: Quota,
    counter: Counter,
    // whether the word before has the condition
    before: bool,
}

impl<const RISES: bool> Counting<RISES> {
    pub fn new(form: Form) -> Counting<RISES>
        ensures settings { Set result.quota form 0 0 }
        ensures accepts { IsFreshPattern ⟦<Counting<RISES> as Pattern>⟧ result (counted RISES form 0 0) }
    {
        Counting {
            quota: Quota {
                form,
                condition: Condition::first(),
                times: 0,
            },
            counter: Counter::zero(),
            before: false,
        }
    }

    // Takes the condition by its number, and starts.
    pub fn set_condition(&mut self, condition: u8) -> Result<(), SettingRefusal>
        ensures settings { TakesIfFits result (IsCondition condition) self.old self.new (Set self.new.quota self.old.quota.form condition self.old.quota.times) }
        ensures accepts { OnOk result (IsFreshPattern ⟦<Counting<RISES> as Pattern>⟧ self.new (counted RISES self.old.quota.form condition self.old.quota.times)) }
    {
        self.quota.condition = Condition::new(condition)?;
        self.start();
        Ok(())
    }

    // Takes the number of times, and starts.
    pub fn set_times(&mut self, times: u16)
        ensures settings { Set self.new.quota self.old.quota.form self.old.quota.condition.number times }
        ensures accepts { IsFreshPattern ⟦<Counting<RISES> as Pattern>⟧ self.new (counted RISES self.old.quota.form self.old.quota.condition.number times) }
    {
        self.quota.times = times;
        self.start();
    }
}

// Beside what every pattern promises, no call but the setters changes the settings.
impl<const RISES: bool> Pattern for Counting<RISES> {
    ghost meaning = { λ p. accepted RISES p.quota };

    ghost rest = { λ p. counted_rest RISES p.quota p.counter.count p.before };

    fn start(&mut self)
        ensures accepts { IsFreshPattern ⟦<Counting<RISES> as Pattern>⟧ self.new (accepted RISES self.old.quota) }
        ensures settings { self.new.quota ≡ self.old.quota }
    {
        self.counter = Counter::zero();
        self.before = false;
    }

    fn read(&mut self, word: u16)
        ensures step { (l : List ℕ) → ⟦<Counting<RISES> as Pattern>⟧.rest self.new l ≡ ⟦<Counting<RISES> as Pattern>⟧.rest self.old (word ∷ l) }
        ensures settings { self.new.quota ≡ self.old.quota }
    {
        let holds = self.quota.condition.holds(word);
        self.counter = self.counter.add(holds & !(RISES & self.before));
        self.before = holds;
    }

    fn verdict(&self) -> bool {
        self.quota.is_met(self.counter.count())
    }
}

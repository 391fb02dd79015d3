pub mod coding;
mod event;
mod reading;
mod term;

ghost use Rattle.std.specs.Prelude.{◌≡◌, MatchResult};
ghost use Rattle.std.specs.Result.{result_err};
ghost use Rattle.encoders.specs.Event.{event_fair};
ghost use Rattle.encoders.specs.Holding.{no_terms, with_term, term_refused};

use crate::conditions::Conditions;
use crate::moisture::term::EventTerm;
use rules::condition::Condition;
use rules::refusal::SettingRefusal;

// Samples of three bytes, each a moisture event: its code, and how far the moisture is from the one set.
#[derive(Clone, Copy)]
pub struct Moisture {
    conditions: Conditions<EventTerm>,
}

impl Moisture {
    ghost use Rattle.encoders.specs.Held.{event_terms};
    ghost use Rattle.encoders.specs.Settings.{HasEvents};

    // No terms.
    pub fn new() -> Moisture
        ensures { HasEvents result no_terms }
    {
        Moisture {
            conditions: Conditions::none(),
        }
    }

    // Gives a condition one more term, by its parts. What this has in common with contacts is `Conditions::add`.
    pub fn add_term(
        &mut self,
        condition: u8,
        code: u8,
        low: i32,
        high: i32,
    ) -> Result<(), SettingRefusal>
        ensures result { result_err result ≡ term_refused (event_fair low high) condition (event_terms self.old) }
        ensures after { MatchResult result (λ _. HasEvents self.new (with_term condition (code, low, high) (event_terms self.old))) (λ _. self.new ≡ self.old) }
    {
        let condition = Condition::new(condition)?;
        let term = EventTerm::new(code, low, high)?;
        self.conditions.add(condition, term)
    }
}

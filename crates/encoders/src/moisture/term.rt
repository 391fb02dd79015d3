ghost use Rattle.std.specs.Prelude.{◌≡◌, true, false, MatchResult, int_le};
ghost use Rattle.rules.specs.declared.refusal.SettingRefusal.TheVariants.{Term as Unfit};
ghost use Rattle.encoders.specs.Event.{event_fits, event_fair};

use crate::moisture::event::Event;
use crate::moisture::reading::Reading;
use crate::term::Term;
use rules::refusal::SettingRefusal;

// A term over events: those of a code whose reading lies between two bounds, or is one of them.
#[derive(Clone, Copy)]
pub struct EventTerm {
    code: u8,
    low: Reading,
    high: Reading,
    ghost ordered: { int_le low.hundredths high.hundredths ≡ true },
}

impl EventTerm {
    pub fn new(code: u8, low: i32, high: i32) -> Result<EventTerm, SettingRefusal>
        ensures { MatchResult result (λ t. (event_fair low high ≡ true) × (t.code ≡ code) × (t.low.hundredths ≡ low) × (t.high.hundredths ≡ high)) (λ e. (event_fair low high ≡ false) × (e ≡ Unfit)) }
    {
        let low = Reading::new(low).ok_or(SettingRefusal::Term)?;
        let high = Reading::new(high).ok_or(SettingRefusal::Term)?;
        if low > high {
            return Err(SettingRefusal::Term);
        }
        Ok(EventTerm { code, low, high })
    }
}

impl Term for EventTerm {
    type Sample = Event;

    ghost fits = { λ t e. event_fits (t.code, t.low.hundredths, t.high.hundredths) e.code e.reading.hundredths };

    fn filler() -> EventTerm {
        EventTerm {
            code: 0,
            low: Reading::zero(),
            high: Reading::zero(),
        }
    }

    fn fits(&self, sample: Event) -> bool {
        sample.code == self.code && self.low <= sample.reading && sample.reading <= self.high
    }
}

ghost use Rattle.encoders.specs.Event.{event_codes};
ghost use Rattle.encoders.specs.Held.{event_terms};
ghost use Rattle.std.proofs.Common.{rules};

use crate::moisture::Moisture;
use crate::moisture::event::Event;
use rules::encoder::Encoder;
use rules::refusal::SampleRefusal;

impl Encoder for Moisture {
    ghost size = { λ _. 3 };

    ghost codes = { λ e. event_codes (event_terms e) };

    ghost some = { Prim.search rules };

    ghost few = { Prim.search rules };

    ghost fits = { Prim.search rules };

    fn size(&self) -> usize {
        3
    }

    fn ask(&self, part: &[u8]) -> Result<u16, SampleRefusal> {
        let event = Event::read(part)?;
        Ok(self.conditions.word(event))
    }
}

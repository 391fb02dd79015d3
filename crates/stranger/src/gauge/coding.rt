ghost use Rattle.stranger.specs.Gauges.{gauge_codes};
ghost use Rattle.std.proofs.Common.{rules};

use crate::gauge::Gauge;
use rules::encoder::Encoder;
use rules::refusal::SampleRefusal;

const SIZE: usize = 2;

// Written out whole, since a stranger has the trait and nothing of the other encoders.
impl Encoder for Gauge {
    ghost size = { λ _. 2 };

    ghost codes = { λ _. gauge_codes };

    ghost some = { Prim.search rules };

    ghost few = { Prim.search rules };

    ghost fits = { Prim.search rules };

    fn size(&self) -> usize {
        SIZE
    }

    fn ask(&self, part: &[u8]) -> Result<u16, SampleRefusal> {
        let [level, complement] = part else {
            return Err(SampleRefusal::Size);
        };
        if u16::from(*level) + u16::from(*complement) != 255 {
            return Err(SampleRefusal::Reading);
        }
        Ok(u16::from(*level) / 64)
    }
}

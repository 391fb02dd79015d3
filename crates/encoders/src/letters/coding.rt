ghost use Rattle.encoders.specs.Letter.{letter_codes};
ghost use Rattle.encoders.specs.Held.{width_of};
ghost use Rattle.std.proofs.Common.{rules};

use crate::letters::Letters;
use rules::encoder::Encoder;
use rules::refusal::SampleRefusal;

impl Encoder for Letters {
    ghost size = { λ _. 1 };

    ghost codes = { λ e. letter_codes (width_of e) };

    ghost some = { Prim.search rules };

    ghost few = { Prim.search rules };

    ghost fits = { Prim.search rules };

    fn size(&self) -> usize {
        1
    }

    fn ask(&self, part: &[u8]) -> Result<u16, SampleRefusal> {
        let byte = self.width.byte(part, SampleRefusal::Letter)?;
        Ok(u16::from(byte))
    }
}

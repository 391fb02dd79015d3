ghost use Rattle.encoders.specs.Contact.{contact_codes};
ghost use Rattle.encoders.specs.Held.{contacts_of, contact_terms};
ghost use Rattle.std.proofs.Common.{rules};

use crate::contacts::Contacts;
use rules::encoder::Encoder;
use rules::refusal::SampleRefusal;

impl Encoder for Contacts {
    ghost size = { λ _. 1 };

    ghost codes = { λ e. contact_codes (contacts_of e) (contact_terms e) };

    ghost some = { Prim.search rules };

    ghost few = { Prim.search rules };

    ghost fits = { Prim.search rules };

    fn size(&self) -> usize {
        1
    }

    fn ask(&self, part: &[u8]) -> Result<u16, SampleRefusal> {
        let byte = self.contacts.byte(part, SampleRefusal::Contacts)?;
        Ok(self.conditions.word(byte))
    }
}

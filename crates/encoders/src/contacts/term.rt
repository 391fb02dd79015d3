ghost use Rattle.std.specs.Prelude.{◌≡◌, MatchResult, ◌≢◌, bit_and};
ghost use Rattle.rules.specs.declared.refusal.SettingRefusal.TheVariants.{Term as Unfit};
ghost use Rattle.encoders.specs.Contact.{contact_fits};

use crate::term::Term;
use rules::refusal::SettingRefusal;

// A term over contacts: those under `care` are as `want` has them, and the others do not matter.
#[derive(Clone, Copy)]
pub struct ContactTerm {
    care: u8,
    want: u8,
    ghost within: { bit_and want care ≡ want },
}

impl ContactTerm {
    pub fn new(care: u8, want: u8) -> Result<ContactTerm, SettingRefusal>
        ensures { MatchResult result (λ t. (bit_and want care ≡ want) × (t.care ≡ care) × (t.want ≡ want)) (λ e. (bit_and want care ≢ want) × (e ≡ Unfit)) }
    {
        if want & care != want {
            return Err(SettingRefusal::Term);
        }
        Ok(ContactTerm { care, want })
    }
}

impl Term for ContactTerm {
    type Sample = u8;

    ghost fits = { λ t s. contact_fits (t.care, t.want) s };

    fn filler() -> ContactTerm {
        ContactTerm { care: 0, want: 0 }
    }

    fn fits(&self, sample: u8) -> bool {
        sample & self.care == self.want
    }
}

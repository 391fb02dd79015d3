ghost use Rattle.std.specs.Prelude.{◌≡◌};
ghost use Rattle.rules.specs.Refusals.{sample_number, setting_number};

// Why an encoder takes no word from a part of a record.
#[derive(Clone, Copy, PartialEq, Eq, Debug)]
pub enum SampleRefusal {
    // the part has not the size of the kind's samples
    Size,
    // a contact sample has a bit above its contacts
    Contacts,
    // a moisture reading is out of range
    Reading,
    // a letter is not below 2^k
    Letter,
}

// Reports and C callers know a refusal by its number. Each enum has a method for it and there is no trait, since
// nothing in the library takes a refusal of any enum.
impl SampleRefusal {
    pub fn number(self) -> u8
        ensures { result ≡ sample_number self }
    {
        match self {
            SampleRefusal::Size => 1,
            SampleRefusal::Contacts => 2,
            SampleRefusal::Reading => 3,
            SampleRefusal::Letter => 17,
        }
    }
}

// Why a setting or a term is not taken. That a refusal changes nothing stands beside what each setter does, which
// differs from kind to kind: a name for the one without the other would be longer than `self.new ≡ self.old`.
#[derive(Clone, Copy, PartialEq, Eq, Debug)]
pub enum SettingRefusal {
    // a number of contacts, a width, a condition or a chain's length is out of range
    Range,
    // a term's values do not fit each other or their range
    Term,
    // the condition has all the terms that it can have
    Full,
}

// Reports and C callers know a refusal by its number.
impl SettingRefusal {
    pub fn number(self) -> u8
        ensures { result ≡ setting_number self }
    {
        match self {
            SettingRefusal::Range => 4,
            SettingRefusal::Term => 5,
            SettingRefusal::Full => 6,
        }
    }
}

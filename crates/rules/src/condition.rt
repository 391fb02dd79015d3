ghost use Rattle.std.specs.Prelude.{◌≡◌, ◌<◌};
ghost use Rattle.rules.specs.Words.{has};

use crate::refusal::SettingRefusal;

// A condition by its number, 0 to 15: it holds of a word whose bit of that number is set.
// Other numbers with a bound (a width, a reading, a count) are types of their own: each is used otherwise.
#[derive(Clone, Copy)]
pub struct Condition {
    number: u8,
    ghost few: { number < 16 },
}

impl Condition {
    ghost use Rattle.rules.specs.Conditions.{NumbersCondition};

    // Condition 0, which every setting has at first.
    pub fn first() -> Condition
        ensures { result.number ≡ 0 }
    {
        Condition { number: 0 }
    }

    pub fn new(number: u8) -> Result<Condition, SettingRefusal>
        ensures { NumbersCondition number result }
    {
        if number > 15 {
            return Err(SettingRefusal::Range);
        }
        Ok(Condition { number })
    }

    pub fn number(self) -> u8
        ensures { result ≡ self.number }
    {
        self.number
    }

    pub fn holds(self, word: u16) -> bool
        ensures { result ≡ has self.number word }
    {
        (word >> self.number) % 2 == 1
    }
}

impl TryFrom<u8> for Condition {
    ghost use Rattle.rules.specs.Conditions.{NumbersCondition};

    type Error = SettingRefusal;

    ghost try_from_gives = { NumbersCondition };

    fn try_from(number: u8) -> Result<Condition, SettingRefusal> {
        Condition::new(number)
    }
}

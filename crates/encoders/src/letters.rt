pub mod coding;

ghost use Rattle.std.specs.Prelude.{◌≡◌, MatchResult};
ghost use Rattle.std.specs.Result.{result_err};
ghost use Rattle.encoders.specs.Letter.{width_refused};

use crate::width::Width;
use rules::refusal::SettingRefusal;

// Samples of one byte that is the word itself: a letter of the alphabet of a table of that width.
#[derive(Clone, Copy)]
pub struct Letters {
    width: Width,
}

impl Letters {
    ghost use Rattle.encoders.specs.Settings.{HasWidth};

    // Of width 0, with the one letter 0.
    pub fn new() -> Letters
        ensures { HasWidth result 0 }
    {
        Letters {
            width: Width::new(0),
        }
    }

    // Sets the width, 0 to 6. Contacts have another range and lose their terms, so the two share `Width` alone.
    pub fn set_width(&mut self, width: u8) -> Result<(), SettingRefusal>
        ensures result { result_err result ≡ width_refused width }
        ensures after { MatchResult result (λ _. HasWidth self.new width) (λ _. self.new ≡ self.old) }
    {
        if width > 6 {
            return Err(SettingRefusal::Range);
        }
        self.width = Width::new(width);
        Ok(())
    }
}

ghost use Rattle.std.specs.Prelude.{not, if◌then◌else◌};
ghost use Rattle.stranger.specs.Paired.{paired};

use crate::pairs::Pairs;
use rules::pattern::Pattern;

impl Pattern for Pairs {
    ghost meaning = { λ _. paired };

    ghost rest = { λ p l. (if p.odd then not (paired l) else paired l) };

    fn start(&mut self) {
        self.odd = false;
    }

    fn read(&mut self, _word: u16) {
        self.odd = !self.odd;
    }

    fn verdict(&self) -> bool {
        !self.odd
    }
}

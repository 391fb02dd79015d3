ghost use Rattle.std.specs.Prelude.{◌≡◌, if◌then◌else◌, nat_eq};
ghost use Rattle.chains.specs.Chains.{precedes};
ghost use Rattle.chains.specs.Progress.{next_met, precedes_on};
ghost use Rattle.chains.specs.Held.{chain_of};

use crate::precedes::Precedes;
use rules::pattern::Pattern;

impl Precedes {
    // How many conditions of the first chain are met after the word: once the second chain has begun, no word
    // counts for the first any more. The word that begins the second still does.
    fn met_after(&self, word: u16) -> usize
        ensures { result ≡ (if nat_eq self.now.followed 0 then next_met (chain_of self.now.first) self.now.met word else self.now.met) }
    {
        if self.followed == 0 {
            self.first.next(self.met, word)
        } else {
            self.met
        }
    }
}

impl Pattern for Precedes {
    ghost meaning = { λ p. precedes (chain_of p.first) (chain_of p.second) };

    ghost rest = { λ p. precedes_on (chain_of p.first) (chain_of p.second) p.met p.followed };

    fn start(&mut self) {
        self.met = 0;
        self.followed = 0;
    }

    fn read(&mut self, word: u16) {
        self.met = self.met_after(word);
        self.followed = self.second.next(self.followed, word);
    }

    fn verdict(&self) -> bool {
        !self.second.is_met(self.followed) | self.first.is_met(self.met)
    }
}

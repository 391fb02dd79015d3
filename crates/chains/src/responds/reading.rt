ghost use Rattle.std.specs.Prelude.{◌≡◌, if◌then◌else◌};
ghost use Rattle.chains.specs.Chains.{responds};
ghost use Rattle.chains.specs.Progress.{next_met, completes, responds_on};
ghost use Rattle.chains.specs.Held.{chain_of, under_of};

use crate::openings::Openings;
use crate::responds::Responds;
use rules::pattern::Pattern;

impl Responds {
    // How many conditions of the response are met after the word. It begins again where the stimulus is
    // completed, since what occurs from there on occurs from every earlier place on too.
    fn answered_after(&self, word: u16) -> usize
        ensures { result ≡ next_met (chain_of self.now.response) (if completes (chain_of self.now.stimulus) (under_of self.now.openings) word then 0 else self.now.answered) word }
    {
        if self.openings.complete(&self.stimulus, word) {
            self.response.next(0, word)
        } else {
            self.response.next(self.answered, word)
        }
    }
}

impl Pattern for Responds {
    ghost meaning = { λ p. responds (chain_of p.stimulus) (chain_of p.response) };

    ghost rest = { λ p. responds_on (chain_of p.stimulus) (chain_of p.response) (under_of p.openings) p.answered };

    fn start(&mut self) {
        self.openings = Openings::none();
        self.answered = self.response.count();
    }

    fn read(&mut self, word: u16) {
        self.answered = self.answered_after(word);
        self.openings = self.openings.after(&self.stimulus, word);
    }

    fn verdict(&self) -> bool {
        self.response.is_met(self.answered)
    }
}

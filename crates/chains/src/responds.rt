pub mod reading;

ghost use Rattle.std.specs.Prelude.{◌≡◌, true, false, ◌&&◌, [], ◌∷◌, MatchResult};
ghost use Rattle.rules.specs.declared.refusal.SettingRefusal.TheVariants.{Range};
ghost use Rattle.chains.specs.Chains.{fair};

use crate::chain::Chain;
use crate::openings::Openings;
use rules::refusal::SettingRefusal;

// One chain responds to another: wherever the stimulus can be run through, the response can be run through too,
// from the earliest place on at which the stimulus is then complete.
#[derive(Clone, Copy)]
pub struct Responds {
    stimulus: Chain,
    response: Chain,
    openings: Openings,
    // how many conditions of the response are met since the stimulus was last completed; all of them before that
    answered: usize,
}

impl Responds {
    ghost use Rattle.chains.specs.Held.{chain_of};
    ghost use Rattle.chains.specs.Settings.{RespondsHas};

    // Condition 0 responds to condition 0.
    pub fn new() -> Responds
        ensures { RespondsHas result (0 ∷ []) (0 ∷ []) }
    {
        Responds::of(Chain::first(), Chain::first())
    }

    // Takes other chains, and starts: the response is to respond to the stimulus.
    pub fn set_chains(&mut self, stimulus: &[u8], response: &[u8]) -> Result<(), SettingRefusal>
        ensures { MatchResult result (λ _. (fair stimulus.now && fair response.now ≡ true) × RespondsHas self.new stimulus.now response.now) (λ e. (fair stimulus.now && fair response.now ≡ false) × (e ≡ Range) × (self.new ≡ self.old)) }
    {
        let stimulus = Chain::new(stimulus)?;
        let response = Chain::new(response)?;
        *self = Responds::of(stimulus, response);
        Ok(())
    }

    // The pattern of these chains, at the empty list: nothing is under way and nothing is owed.
    fn of(stimulus: Chain, response: Chain) -> Responds
        ensures { RespondsHas result (chain_of stimulus) (chain_of response) }
    {
        Responds {
            stimulus,
            response,
            openings: Openings::none(),
            answered: response.count(),
        }
    }
}

pub mod reading;

ghost use Rattle.std.specs.Prelude.{◌≡◌, true, false, ◌&&◌, [], ◌∷◌, MatchResult};
ghost use Rattle.rules.specs.declared.refusal.SettingRefusal.TheVariants.{Range};
ghost use Rattle.chains.specs.Chains.{fair};

use crate::chain::Chain;
use rules::refusal::SettingRefusal;

// One chain precedes another: in a list where the second occurs, the first is complete by the first place that
// has the second's first condition, that place included.
#[derive(Clone, Copy)]
pub struct Precedes {
    first: Chain,
    second: Chain,
    // how many conditions of the first chain are met, at places up to the first that begins the second
    met: usize,
    // how many conditions of the second chain are met
    followed: usize,
}

impl Precedes {
    ghost use Rattle.chains.specs.Held.{chain_of};
    ghost use Rattle.chains.specs.Settings.{PrecedesHas};

    // Condition 0 precedes condition 0.
    pub fn new() -> Precedes
        ensures { PrecedesHas result (0 ∷ []) (0 ∷ []) }
    {
        Precedes::of(Chain::first(), Chain::first())
    }

    // Takes other chains, and starts. `Responds` does the same: a trait for both would be longer than the body.
    pub fn set_chains(&mut self, first: &[u8], second: &[u8]) -> Result<(), SettingRefusal>
        ensures { MatchResult result (λ _. (fair first.now && fair second.now ≡ true) × PrecedesHas self.new first.now second.now) (λ e. (fair first.now && fair second.now ≡ false) × (e ≡ Range) × (self.new ≡ self.old)) }
    {
        let first = Chain::new(first)?;
        let second = Chain::new(second)?;
        *self = Precedes::of(first, second);
        Ok(())
    }

    // The pattern of these chains, at the empty list.
    fn of(first: Chain, second: Chain) -> Precedes
        ensures { PrecedesHas result (chain_of first) (chain_of second) }
    {
        Precedes {
            first,
            second,
            met: 0,
            followed: 0,
        }
    }
}

ghost use Rattle.std.specs.Prelude.{◌≡◌, ◌<◌, true, false, [], ◌∷◌, length, drop, nat_le, MatchResult};
ghost use Rattle.rules.specs.declared.refusal.SettingRefusal.TheVariants.{Range};
ghost use Rattle.rules.specs.Few.{items_of};
ghost use Rattle.chains.specs.Chains.{fair, begins};
ghost use Rattle.chains.specs.Progress.{next_met};

use rules::condition::Condition;
use rules::few::Few;
use rules::refusal::SettingRefusal;

// One to four conditions that are to hold in turn, each at a later place than the one before it.
// Clauses name the conditions' numbers by `chain_of`: a `Model` would be a second name for them.
#[derive(Clone, Copy)]
pub struct Chain {
    conditions: Few<Condition, 4>,
    ghost some: { 0 < length (items_of conditions) },
}

impl Chain {
    ghost use Rattle.chains.specs.Held.{chain_of};

    // Condition 0 alone, which every setting has at first.
    pub fn first() -> Chain
        ensures { chain_of result ≡ 0 ∷ [] }
    {
        let mut conditions = Few::none(Condition::first());
        conditions.push(Condition::first()).unwrap();
        Chain { conditions }
    }

    // The chain of these conditions, where there are one to four and each is the number of one. Setters take numbers,
    // so that only this refuses them; a `TryFrom` would but repeat it.
    pub fn new(numbers: &[u8]) -> Result<Chain, SettingRefusal>
        ensures { MatchResult result (λ c. (fair numbers.now ≡ true) × (chain_of c ≡ numbers.now)) (λ e. (fair numbers.now ≡ false) × (e ≡ Range)) }
    {
        if numbers.is_empty() {
            return Err(SettingRefusal::Range);
        }
        let mut conditions = Few::none(Condition::first());
        for number in numbers {
            let condition = Condition::new(*number)?;
            conditions
                .push(condition)
                .map_err(|_| SettingRefusal::Range)?;
        }
        Ok(Chain { conditions })
    }

    // The word has the condition that comes after the first `met`.
    pub(crate) fn goes_on(&self, met: usize, word: u16) -> bool
        ensures { result ≡ begins (drop met (chain_of self.now)) word }
    {
        let conditions = self.conditions.as_slice();
        conditions
            .get(met)
            .is_some_and(|condition| condition.holds(word))
    }

    // How many conditions are met after the word, where `met` were before it.
    pub(crate) fn next(&self, met: usize, word: u16) -> usize
        ensures { result ≡ next_met (chain_of self.now) met word }
    {
        if self.goes_on(met, word) {
            met + 1
        } else {
            met
        }
    }

    pub(crate) fn count(&self) -> usize
        ensures { result ≡ length (chain_of self.now) }
    {
        self.conditions.as_slice().len()
    }

    // All conditions are met where `met` are.
    pub(crate) fn is_met(&self, met: usize) -> bool
        ensures { result ≡ nat_le (length (chain_of self.now)) met }
    {
        self.count() <= met
    }
}

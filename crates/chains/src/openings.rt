ghost use Rattle.std.specs.Prelude.{◌≡◌, false, [], ◌∷◌};
ghost use Rattle.chains.specs.Progress.{opened, completes};
ghost use Rattle.chains.specs.Held.{chain_of, under_of};

use crate::chain::Chain;

// The openings of a chain that are under way: whether some opening has met one condition of the chain so far,
// some two, and some three. Openings that have met the same number go on alike, so a flag stands for them all.
// An array of flags would be no plainer: each line would still ask the chain by the flag's place.
#[derive(Clone, Copy)]
pub(crate) struct Openings {
    one: bool,
    two: bool,
    three: bool,
}

impl Openings {
    pub(crate) fn none() -> Openings
        ensures { under_of result ≡ false ∷ false ∷ false ∷ [] }
    {
        Openings {
            one: false,
            two: false,
            three: false,
        }
    }

    // The word completes the chain for an opening, or for the one that it makes.
    pub(crate) fn complete(self, chain: &Chain, word: u16) -> bool
        ensures { result ≡ completes (chain_of chain.now) (under_of self) word }
    {
        match chain.count() {
            1 => chain.goes_on(0, word),
            2 => self.one & chain.goes_on(1, word),
            3 => self.two & chain.goes_on(2, word),
            _ => self.three & chain.goes_on(3, word),
        }
    }

    // The openings under way after the word.
    pub(crate) fn after(self, chain: &Chain, word: u16) -> Openings
        ensures { under_of result ≡ opened (chain_of chain.now) (under_of self) word }
    {
        let second = chain.goes_on(1, word);
        let third = chain.goes_on(2, word);
        Openings {
            one: chain.goes_on(0, word) | (self.one & !second),
            two: (self.one & second) | (self.two & !third),
            three: (self.two & third) | (self.three & !chain.goes_on(3, word)),
        }
    }
}

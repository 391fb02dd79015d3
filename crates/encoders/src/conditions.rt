ghost use Rattle.std.specs.Prelude.{◌≡◌, ⊤, length, ◌∷◌, ◌++◌, MatchResult, false, true, slice_index_or, [], position};
ghost use Rattle.std.specs.List.{list_any};
ghost use Rattle.rules.specs.declared.refusal.SettingRefusal.TheVariants.{Full};
ghost use Rattle.rules.specs.Few.{items_of};
ghost use Rattle.encoders.specs.Holding.{full, word, no_terms, with_term};

use crate::term::Term;
use rules::condition::Condition;
use rules::few::Few;
use rules::refusal::SettingRefusal;
use std::alloc::AllocError;

// The terms of one condition, at most eight.
pub type Terms<T> = Few<T, 8>;

// The terms of each of the 16 conditions, by its number: there is no heap for a map.
pub struct Conditions<T> {
    lists: [Terms<T>; 16],
    ghost whole: { length lists ≡ 16 },
}

// A copy is the same value. No derive writes this for a generic struct with a fact of its own, and a law
// rests on the fact.
impl<T: Copy> Clone for Conditions<T> {
    ghost is_clone = { λ x y. y ≡ x };

    ghost is_infallible = { λ _. ⊤ };

    fn clone(&self) -> Result<Conditions<T>, AllocError> {
        Ok(*self)
    }
}

impl<T: Copy> Copy for Conditions<T> {}

impl<T: Term> Conditions<T> {
    ghost use Rattle.encoders.specs.Held.{lists_of};

    pub fn none() -> Conditions<T>
        ensures { lists_of result ≡ no_terms }
    {
        Conditions {
            lists: [Few::none(T::filler()); 16],
        }
    }

    // Appends a term to those of a condition, if there is room.
    pub fn add(&mut self, condition: Condition, term: T) -> Result<(), SettingRefusal>
        ensures { MatchResult result (λ _. (full (slice_index_or (lists_of self.old) condition.number []) ≡ false) × (lists_of self.new ≡ with_term condition.number term (lists_of self.old))) (λ e. (full (slice_index_or (lists_of self.old) condition.number []) ≡ true) × (e ≡ Full) × (self.new ≡ self.old)) }
    {
        let i = usize::from(condition.number());
        self.lists[i].push(term).map_err(|_| SettingRefusal::Full)?;
        Ok(())
    }

    // The word of a sample: bit i is set when a term of condition i fits.
    pub fn word(&self, sample: T::Sample) -> u16
        ensures { result ≡ word (λ t. T.Term.fits t sample) (lists_of self.now) }
    {
        let mut bits = 0;
        for terms in self.lists.iter().rev() {
            bits = 2 * bits + u16::from(fit(terms, sample));
        }
        bits
    }
}

// The place of the first term that fits. By `position`: with `any`, a sample of few terms or none was compiled to half
// to four fifths more work.
fn first_fit<T: Term>(terms: &Terms<T>, sample: T::Sample) -> Option<usize>
    ensures { result ≡ position (λ t. T.Term.fits t sample) (items_of terms.now) }
{
    terms.as_slice().iter().position(|term| term.fits(sample))
}

// Whether at least one of the terms fits.
#[tactic(auto, using(crate::proofs::Fitting::placed))]
fn fit<T: Term>(terms: &Terms<T>, sample: T::Sample) -> bool
    ensures { result ≡ list_any (λ t. T.Term.fits t sample) (items_of terms.now) }
{
    first_fit(terms, sample).is_some()
}

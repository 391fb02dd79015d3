ghost use Rattle.std.specs.Prelude.{◌≡◌, ℕ, ◌≤◌, List, length, Err, Result as Either, ◌≢◌};
ghost use Rattle.rules.specs.declared.refusal.SampleRefusal.{SampleRefusal as Refused};
ghost use Rattle.rules.specs.declared.refusal.SampleRefusal.TheVariants.{Size};

use crate::refusal::SampleRefusal;

// An encoder turns a sample, a part of a record's bytes, into a condition word.
//
// `size` is the size of its samples in bytes, and `codes` the word or the refusal of any part.
pub trait Encoder {
    ghost size: { Self → ℕ };

    ghost codes: { Self → List ℕ → Either ℕ Refused };

    fn size(&self) -> usize
        ensures { result ≡ size self.now };

    // The word of a sample.
    fn ask(&self, part: &[u8]) -> Result<u16, SampleRefusal>
        ensures { result ≡ codes self.now part.now };

    // The facts that follow are shown in each impl, by one search of its own `size` and `codes`.
    ghost some: { (e : Self) → 1 ≤ size e };

    ghost few: { (e : Self) → size e ≤ 255 };

    ghost fits: { (e : Self) (part : List ℕ) → (length part ≢ size e) → codes e part ≡ Err Size };
}

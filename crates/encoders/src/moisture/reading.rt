ghost use Rattle.std.specs.Prelude.{◌≡◌, true, false, pos, MatchOption};
ghost use Rattle.encoders.specs.Event.{readable};

// How far the moisture is off its set value, in hundredths of a point: at most a hundred points either way.
#[derive(Clone, Copy, PartialEq, Eq, PartialOrd, Ord)]
pub struct Reading {
    hundredths: i16,
    ghost near: { readable hundredths ≡ true },
}

const MOST: i32 = 10_000;

impl Reading {
    // The set moisture itself.
    pub fn zero() -> Reading
        ensures { result.hundredths ≡ pos 0 }
    {
        Reading { hundredths: 0 }
    }

    pub fn new(hundredths: i32) -> Option<Reading>
        ensures { MatchOption result (readable hundredths ≡ false) (λ x. (readable hundredths ≡ true) × (x.hundredths ≡ hundredths)) }
    {
        if !(-MOST..=MOST).contains(&hundredths) {
            return None;
        }
        // `as` loses nothing in this range, where a checked conversion would have a case that cannot be
        Some(Reading {
            hundredths: hundredths as i16,
        })
    }
}

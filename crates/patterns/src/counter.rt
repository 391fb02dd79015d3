ghost use Rattle.std.specs.Prelude.{◌≡◌, ◌+◌, ◌≤◌, min, if◌then◌else◌};

// A count of places in a list of whatever length. It stops at 65,536, which is more than can be asked for,
// so that a larger count makes no difference.
#[derive(Clone, Copy)]
pub struct Counter {
    count: u32,
    ghost capped: { count ≤ 65536 },
}

impl Counter {
    const CAP: u32 = 65536;

    pub fn zero() -> Counter
        ensures { result.count ≡ 0 }
    {
        Counter { count: 0 }
    }

    // Counts one more place, if it counts.
    pub fn add(self, counts: bool) -> Counter
        ensures { result.count ≡ min (self.count + (if counts then 1 else 0)) 65536 }
    {
        Counter {
            count: (self.count + u32::from(counts)).min(Self::CAP),
        }
    }

    pub fn count(self) -> u32
        ensures { result ≡ self.count }
    {
        self.count
    }
}

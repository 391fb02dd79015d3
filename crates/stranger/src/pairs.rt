pub mod reading;

ghost use Rattle.rules.specs.Settings.{IsFreshPattern};
ghost use Rattle.stranger.specs.Paired.{paired};

use rules::pattern::Pattern;

// Words in pairs: an even number of them.
#[derive(Clone, Copy)]
pub struct Pairs {
    odd: bool,
}

impl Pairs {
    pub fn new() -> Pairs
        ensures { IsFreshPattern ⟦<Pairs as Pattern>⟧ result paired }
    {
        Pairs { odd: false }
    }
}

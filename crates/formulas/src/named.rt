// The ten patterns that have a published formula, each with its conditions by number.
#[derive(Clone, Copy)]
pub enum NamedPattern {
    // always P
    Always { p: u8 },
    // never P
    Never { p: u8 },
    // eventually P, at least once
    Eventually { p: u8 },
    // eventually P, at most 2 times
    AtMostTwice { p: u8 },
    // P precedes S
    Precedes { p: u8, s: u8 },
    // (P1, P2) precedes S
    PairPrecedes { p1: u8, p2: u8, s: u8 },
    // P precedes (S1, S2)
    PrecedesPair { p: u8, s1: u8, s2: u8 },
    // S responds to P
    Responds { p: u8, s: u8 },
    // (S1, S2) responds to P
    PairResponds { p: u8, s1: u8, s2: u8 },
    // S responds to (P1, P2)
    RespondsToPair { p1: u8, p2: u8, s: u8 },
}

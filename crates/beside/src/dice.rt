use std::alloc::Global;

// A small generator of numbers, with the memory for what is made of them: the same seed gives the same numbers on every
// machine.
#[derive(Clone, Copy)]
pub struct Dice {
    pub heap: Global,
    state: u64,
}

impl Dice {
    pub fn new(heap: Global, seed: u64) -> Dice {
        Dice {
            heap,
            state: seed.wrapping_mul(0x9E37_79B9_7F4A_7C15) | 1,
        }
    }

    // A roll is cut by `as` where it is used: only its low bits are wanted, which no `From` gives.
    fn roll(&mut self) -> u64 {
        let mut x = self.state;
        x = x ^ (x << 13);
        x = x ^ (x >> 7);
        x = x ^ (x << 17);
        self.state = x;
        x.wrapping_mul(0x2545_F491_4F6C_DD1D) >> 33
    }

    // Any number below n, or 0 where n is 0.
    pub fn below(&mut self, n: usize) -> usize {
        let x = self.roll() as usize;
        if n == 0 { 0 } else { x % n }
    }

    pub fn one_in(&mut self, n: usize) -> bool {
        self.below(n) == 0
    }

    // Each choice as often in n as the number before it says, and the last one otherwise.
    pub fn choose<T: Copy>(&mut self, n: usize, choices: &[(usize, T)], last: T) -> T {
        let mut left = self.below(n);
        // a loop: each choice takes its times off what is left of the roll
        for (times, choice) in choices {
            if left < *times {
                return *choice;
            }
            left -= *times;
        }
        last
    }

    pub fn byte(&mut self) -> u8 {
        (self.roll() & 0xff) as u8
    }

    // A byte below n.
    pub fn byte_below(&mut self, n: u8) -> u8 {
        if n == 0 { 0 } else { self.byte() % n }
    }

    // A condition: mostly one of the first three, now and then any, seldom the number of none.
    pub fn condition(&mut self) -> u8 {
        if self.one_in(12) {
            return self.byte_below(18);
        }
        self.byte_below(3)
    }

    // A word: mostly of the first three conditions.
    pub fn word(&mut self) -> u16 {
        if self.one_in(10) {
            return (self.roll() & 0xffff) as u16;
        }
        u16::from(self.byte_below(8))
    }
}

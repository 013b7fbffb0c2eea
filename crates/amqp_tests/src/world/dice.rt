//! Numbers that look random, and are the same in each run.

/// A generator with 32 bits of state (xorshift), which are not all zero, and one of octets, which gives each once in 256 times.
#[derive(Clone, Copy)]
pub struct Dice {
    state: u32,
    octet: u8,
}

impl Dice {
    pub fn new(seed: u32) -> Dice {
        Dice {
            state: seed.wrapping_mul(2654435761) | 1,
            octet: 0,
        }
    }

    /// A number below the bound; 0 where the bound is 0.
    pub fn below(&mut self, bound: u32) -> u32 {
        let mut x = self.state;
        x ^= x << 13;
        x ^= x >> 17;
        x ^= x << 5;
        self.state = x;
        if bound == 0 { 0 } else { (x >> 4) % bound }
    }

    pub fn octet(&mut self) -> u8 {
        self.octet = self.octet.wrapping_mul(5).wrapping_add(3);
        self.octet
    }

    /// Once in so many times.
    pub fn one_in(&mut self, times: u32) -> bool {
        self.below(times) == 0
    }
}

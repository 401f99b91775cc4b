// Numbers below 512 in nine words: eight of 64 bits, and one whose bits say which of the eight are not 0.
#![tactic(auto)]

ghost use Rattle.std.specs.Prelude.{◌≡◌, ◌^◌, ◌<◌, get_or, replicate};
ghost use Rattle.std.specs.Int.Count.{count_trailing_zeros};
ghost use Rattle.pool.specs.Pool.{put_of, taken_of, lowest_of};

// A set of numbers below 512.
// stays: the ninth word is no field of its own: each definition of `pool`, and each clause here and in `ordering`, would name a list and a number for one list.
#[derive(Clone, Copy)]
pub struct NumberSet {
    pub words: [u64; 9],
}

// The word that has bit i alone.
pub fn bit(i: usize) -> u64
    requires { i < 64 }
    ensures { result ≡ 2 ^ i }
{
    1u64 << i
}

fn low_bit(x: u64) -> usize
    ensures { result ≡ count_trailing_zeros 64 x }
{
    u64::trailing_zeros(x) as usize
}

impl NumberSet {
    pub fn new() -> NumberSet
        ensures { result.words ≡ replicate 9 0 }
    {
        NumberSet { words: [0; 9] }
    }

    // Puts v in.
    pub fn put(&mut self, v: usize)
        requires { v < 512 }
        ensures { self.new.words ≡ put_of self.old.words v }
    {
        let w = v / 64;
        self.words[w] |= bit(v % 64);
        self.words[8] |= bit(w);
    }

    // Takes v out, which is in.
    pub fn take(&mut self, v: usize)
        requires { v < 512 }
        ensures { self.new.words ≡ taken_of self.old.words v }
    {
        let w = v / 64;
        let x = self.words[w] ^ bit(v % 64);
        self.words[w] = x;
        if x == 0 {
            self.words[8] ^= bit(w);
        }
    }

    // The lowest that is in, if any.
    pub fn lowest(&self) -> Option<usize>
        requires { (get_or self.now.words 8 0 ≡ 0 → ⊥) → count_trailing_zeros 64 (get_or self.now.words 8 0) < 8 }
        ensures { result ≡ lowest_of self.now.words }
    {
        let top = self.words[8];
        if top == 0 {
            return None;
        }
        let w = low_bit(top);
        Some(w * 64 + low_bit(self.words[w]))
    }
}

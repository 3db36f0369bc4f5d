// One bit for each number below 16,384.
ghost use Rattle.std.specs.Prelude.{◌≡◌, ℕ, ◌<◌, false, ◌||◌, ◌==◌};
ghost use Rattle.grid.specs.Bits.{bit};

// An array, since the memory of a set is fixed.
#[derive(Drop)]
pub struct BitTable {
    words: [u64; 256],
}

impl BitTable {
    // No bit is set.
    #[tactic(auto, using(crate::proofs::Words::no_bit))]
    pub(crate) fn new() -> Self
        ensures { (n : ℕ) → bit result n ≡ false }
    {
        BitTable { words: [0; 256] }
    }

    #[tactic(auto, using(crate::proofs::Words::bit_set))]
    pub(crate) fn set(&mut self, n: usize)
        requires { n < 16384 }
        ensures { (m : ℕ) → bit self.new m ≡ (m == n || bit self.old m) }
    {
        let word = self.words[n / 64];
        self.words[n / 64] = word | (1 << (n % 64));
    }

    #[tactic(auto, using(crate::proofs::Words::bit_read))]
    pub(crate) fn get(&self, n: usize) -> bool
        requires { n < 16384 }
        ensures { result ≡ bit self.now n }
    {
        let word = self.words[n / 64];
        (word >> (n % 64)) & 1 == 1
    }
}

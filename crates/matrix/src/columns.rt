// Sets of columns: words of 64 bits.
ghost use Rattle.std.specs.Prelude.{◌≡◌, false, ◌&&◌, ◌||◌, ℕ};
ghost use Rattle.matrix.specs.Sets.{has};

use crate::words::{self, Word};

// A set of columns.
pub type Set = Word;

// A set has columns below this number.
pub const LIMIT: usize = words::BITS;

// No column.
pub const NONE: Set = Word::EMPTY;

// Every column.
pub const ALL: Set = Word::ALL;

// The columns of some words, and those that two of them have.
#[derive(Clone, Copy)]
pub struct Coverage {
    pub once: Set,
    pub twice: Set,
}

impl Coverage {
    // No word.
    #[inline]
    #[tactic(auto, using(crate::proofs::Bits::has_zero))]
    pub fn new() -> Coverage
        ensures once { (x : ℕ) → has result.once x ≡ false }
        ensures twice { (x : ℕ) → has result.twice x ≡ false }
    {
        Coverage {
            once: NONE,
            twice: NONE,
        }
    }

    // One word more.
    #[inline]
    pub fn add(&mut self, word: Set)
        ensures once { (x : ℕ) → has self.new.once x ≡ (has self.old.once x || has word x) }
        ensures twice { (x : ℕ) → has self.new.twice x ≡ (has self.old.twice x || has self.old.once x && has word x) }
    {
        self.twice |= self.once & word;
        self.once |= word;
    }
}

// One word of 64 bits. Sets of columns and of rows are made of such words.
ghost use Rattle.std.specs.Prelude.{◌≡◌, true, not, ◌&&◌, ◌||◌, ℕ, ◌+◌, ◌≤◌, ◌<◌, ◌^◌, eqb, ltb};
ghost use Rattle.matrix.specs.Sets.{word_bits, has_bit, has_raised, Emptiness, Meeting, Inclusion, Next, NextIfAny};
ghost use Rattle.std.specs.Iterator.Runs.{EachRunFrom};
ghost use Rattle.numbers.specs.Ascending.{GivesBelow};
ghost use Rattle.matrix.specs.Walks.{YieldsBits, bits_word, bits_count};

use std::marker::Model;
use std::ops::{BitAnd, BitAndAssign, BitOr, BitOrAssign, Shl, Shr, Sub, SubAssign};

// The bits of a word.
pub const BITS: usize = 64;

// A word. By default it has no bit.
#[derive(Clone, Copy, Debug, Default, PartialEq, Eq, PartialOrd, Ord, Hash)]
#[repr(C)]
pub struct Word(u64);

impl Model for Word {
    ghost use Rattle.std.specs.Prelude.{ℕ, ◌<◌, ◌^◌};

    ghost Value = { ℕ };

    ghost view = { λ w. w.0 };

    ghost invariant = { λ w. w.0 < 2 ^ 64 };

    ghost inverse = { λ n. record { 0 = n } };
}

impl From<u64> for Word {
    ghost from_gives = { λ n r. r ≡ n };

    #[inline]
    fn from(bits: u64) -> Word {
        Word(bits)
    }
}

impl From<Word> for u64 {
    ghost from_gives = { λ w r. r ≡ w };

    #[inline]
    fn from(word: Word) -> u64 {
        word.0
    }
}

impl Word {
    // No bit.
    pub const EMPTY: Word = Word(0);

    // Every bit.
    pub const ALL: Word = Word(u64::MAX);

    // The bit b alone. It is asked to be one of a word's: a number of a column is any `usize`.
    #[inline]
    #[tactic(auto, using(crate::proofs::Bits::has_only))]
    pub fn only(b: usize) -> Word
        requires { b < word_bits }
        ensures { (x : ℕ) → has_bit result x ≡ eqb x b }
    {
        Word(1 << b)
    }

    // Whether the bit b is set.
    #[inline]
    #[tactic(auto, using(crate::proofs::Bits::has_shifted))]
    pub fn contains(self, b: usize) -> bool
        requires { b < word_bits }
        ensures { result ≡ has_bit self b }
    {
        self.0 >> b & 1 == 1
    }

    // Whether no bit is set.
    #[inline]
    pub fn is_empty(self) -> bool
        ensures { Emptiness self result }
    {
        self.0 == 0
    }

    // Whether both words have some bit.
    #[inline]
    pub fn meets(self, other: Word) -> bool
        ensures { Meeting self other result }
    {
        !(self & other).is_empty()
    }

    // Whether every bit is one of the other word.
    #[inline]
    pub fn is_subset(self, other: Word) -> bool
        ensures { Inclusion self other result }
    {
        self.0 & other.0 == self.0
    }

    // How many bits are set.
    #[inline]
    pub fn len(self) -> usize
        ensures { result ≤ word_bits }
    {
        self.0.count_ones() as usize
    }

    // The word with the bit b more, which is above all of its bits.
    #[inline]
    pub fn with_next(self, b: usize) -> Word
        requires { (b < word_bits) × (self < 2 ^ b) }
        ensures { result ≡ self + 2 ^ b }
    {
        Word(self.0 + (1 << b))
    }

    // The first bit. That all bits are within the word is promised with it: a law in its place was tried, and the proof does not close where a caller unwraps
    // the first column of a set that has one.
    #[inline]
    #[tactic(auto, using(crate::proofs::Bits::bits_within))]
    pub fn first(self) -> Option<usize>
        ensures first { NextIfAny (has_bit self) 0 word_bits result }
        ensures within { (b : ℕ) → has_bit self b ≡ true → b < word_bits }
    {
        if self.0 == 0 {
            return None;
        }
        Some(self.0.trailing_zeros() as usize)
    }

    // The bits without the first one.
    #[inline]
    pub fn without_first(self) -> Word
        ensures { (b : ℕ) → Next (has_bit self) 0 word_bits b → (x : ℕ) → has_bit result x ≡ (ltb b x && has_bit self x) }
    {
        Word(self.0 & self.0.wrapping_sub(1))
    }

    // The first bit from `from` on.
    #[inline]
    pub fn next_from(self, from: usize) -> Option<usize>
        requires { from ≤ word_bits }
        ensures { NextIfAny (has_bit self) from word_bits result }
    {
        if from == BITS {
            return None;
        }
        let rest = self.0 >> from;
        if rest == 0 {
            return None;
        }
        Some(from + rest.trailing_zeros() as usize)
    }
}

// The bits of both words.
impl BitAnd for Word {
    type Output = Word;

    ghost bitand_gives = { λ v w r. (x : ℕ) → has_bit r x ≡ (has_bit v x && has_bit w x) };

    #[inline]
    #[tactic(auto, using(crate::proofs::Bits::has_and))]
    fn bitand(self, other: Word) -> Word {
        Word(self.0 & other.0)
    }
}

// The same, put in place of the first word.
impl BitAndAssign for Word {
    ghost bitand_assign_gives = { λ v w r. (x : ℕ) → has_bit r x ≡ (has_bit v x && has_bit w x) };

    #[inline]
    fn bitand_assign(&mut self, other: Word) {
        *self = *self & other;
    }
}

// The bits of either word.
impl BitOr for Word {
    type Output = Word;

    ghost bitor_gives = { λ v w r. (x : ℕ) → has_bit r x ≡ (has_bit v x || has_bit w x) };

    #[inline]
    #[tactic(auto, using(crate::proofs::Bits::has_or, crate::proofs::Bits::or_fits))]
    fn bitor(self, other: Word) -> Word {
        Word(self.0 | other.0)
    }
}

// The same, put in place of the first word.
impl BitOrAssign for Word {
    ghost bitor_assign_gives = { λ v w r. (x : ℕ) → has_bit r x ≡ (has_bit v x || has_bit w x) };

    #[inline]
    fn bitor_assign(&mut self, other: Word) {
        *self = *self | other;
    }
}

// The bits that the other word lacks.
impl Sub for Word {
    type Output = Word;

    ghost sub_gives = { λ v w r. (x : ℕ) → has_bit r x ≡ (has_bit v x && not (has_bit w x)) };

    #[inline]
    #[tactic(auto, using(crate::proofs::Bits::has_without, crate::proofs::Bits::without_fits))]
    fn sub(self, other: Word) -> Word {
        Word(self.0 ^ (self.0 & other.0))
    }
}

// The same, put in place of the first word.
impl SubAssign for Word {
    ghost sub_assign_gives = { λ v w r. (x : ℕ) → has_bit r x ≡ (has_bit v x && not (has_bit w x)) };

    #[inline]
    fn sub_assign(&mut self, other: Word) {
        *self = *self - other;
    }
}

// The bits, each raised by d; those that pass the last are gone.
impl Shl<usize> for Word {
    type Output = Word;

    ghost can_shl = { λ w d. d < word_bits };

    ghost shl_gives = { λ w d r. (x : ℕ) → has_bit r x ≡ has_raised w d x };

    #[inline]
    #[tactic(auto, using(crate::proofs::Bits::has_raised_lem))]
    fn shl(self, d: usize) -> Word {
        Word(self.0 << d)
    }
}

// The bits, each lowered by d; those below d are gone.
impl Shr<usize> for Word {
    type Output = Word;

    ghost can_shr = { λ w d. d < word_bits };

    ghost shr_gives = { λ w d r. (x : ℕ) → has_bit r x ≡ has_bit w (x + d) };

    #[inline]
    #[tactic(auto, using(crate::proofs::Bits::has_shr))]
    fn shr(self, d: usize) -> Word {
        Word(self.0 >> d)
    }
}

// The bits of a word, ascending.
#[derive(Clone, Copy)]
pub struct Bits {
    left: Word,
}

impl Iterator for Bits {
    type Item = usize;

    ghost next_gives = { YieldsBits };

    ghost remaining = { bits_count };

    #[inline]
    fn next(&mut self) -> Option<usize> {
        let b = self.left.first()?;
        self.left = self.left.without_first();
        Some(b)
    }
}

impl IntoIterator for Word {
    type Item = usize;

    type IntoIter = Bits;

    ghost into_iter_gives = { λ w r. (bits_word r ≡ w) × ((b : ℕ) → has_bit w b ≡ true → b < word_bits) × EachRunFrom YieldsBits r (GivesBelow word_bits (has_bit w)) };

    #[inline]
    fn into_iter(self) -> Bits {
        // By its bits, which are known to be below 64, and not by `self`, of which that is not known.
        Bits { left: Word(self.0) }
    }
}

// Sets of rows: arrays of twelve words of 64 bits.
ghost use Rattle.std.specs.Prelude.{◌≡◌, true, false, not, ◌&&◌, ◌||◌, ℕ, ◌≤◌, ◌<◌, eqb, ltb, length, get_or, MatchOption};
ghost use Rattle.covering.specs.Weighted.{set_size};
ghost use Rattle.matrix.specs.Sets.{row_limit, row_words, member, Member, NextIfAny};

use crate::words::{self, Word};
use std::array;
use std::marker::Model;

// The words of a set.
const WORDS: usize = 12;

// A set has rows below this number.
pub const LIMIT: usize = WORDS * words::BITS;

// A set of rows. By default it has no row.
#[derive(Clone, Copy, Debug, Default, PartialEq, Eq, PartialOrd, Ord, Hash)]
pub struct Set {
    words: [Word; WORDS],
}

impl Model for Set {
    ghost use Rattle.std.specs.Prelude.{◌≡◌, List, ℕ, length};
    ghost use Rattle.matrix.specs.Sets.{row_words};

    ghost Value = { List ℕ };

    ghost view = { λ s. s.words };

    ghost invariant = { λ s. length s.words ≡ row_words };

    ghost inverse = { λ l. record { words = l } };
}

impl Set {
    ghost use Rattle.std.specs.Iterator.Runs.{EachRunFrom};
    ghost use Rattle.numbers.specs.Ascending.{GivesBelow};
    ghost use Rattle.matrix.specs.Walks.{rows_end, rows_left, YieldsRows};

    // The word k.
    #[inline]
    fn word(&self, k: usize) -> Word
        requires { k < row_words }
        ensures is { result ≡ get_or self.now k 0 }
        ensures long { length self.now ≡ row_words }
    {
        self.words[k]
    }

    // No row.
    pub fn none() -> Set
        ensures { (j : ℕ) → member result j ≡ false }
    {
        Set {
            words: [Word::EMPTY; WORDS],
        }
    }

    // The rows below n.
    pub fn below(n: usize) -> Set
        requires { n ≤ row_limit }
        ensures { (j : ℕ) → member result j ≡ ltb j n }
    {
        let mut set = Set::none();
        for i in 0..n {
            set.insert(i);
        }
        set
    }

    // Whether the row i is in the set.
    #[inline]
    #[tactic(auto, unfolding(crate::specs::Sets::member))]
    pub fn contains(&self, i: usize) -> bool
        requires { i < row_limit }
        ensures { result ≡ member self.now i }
    {
        self.word(i / words::BITS).contains(i % words::BITS)
    }

    // The row i more.
    #[inline]
    pub fn insert(&mut self, i: usize)
        requires { i < row_limit }
        ensures { (j : ℕ) → member self.new j ≡ (eqb j i || member self.old j) }
    {
        let k = i / words::BITS;
        let word = Word::only(i % words::BITS) | self.word(k);
        self.words[k] = word;
    }

    // The set without the row i.
    #[inline]
    pub fn remove(&mut self, i: usize)
        requires { i < row_limit }
        ensures { (j : ℕ) → member self.new j ≡ (member self.old j && not (eqb j i)) }
    {
        let k = i / words::BITS;
        let word = self.word(k) - Word::only(i % words::BITS);
        self.words[k] = word;
    }

    // The rows of either set.
    pub fn union(&self, other: &Set) -> Set
        ensures { (j : ℕ) → member result j ≡ (member self.now j || member other.now j) }
    {
        Set {
            words: array::from_fn(|k| self.word(k) | other.word(k)),
        }
    }

    // The rows that the other set lacks. No call uses it: it is what takes a set of rows, an orbit say, out of the live ones.
    pub fn difference(&self, other: &Set) -> Set
        ensures { (j : ℕ) → member result j ≡ (member self.now j && not (member other.now j)) }
    {
        Set {
            words: array::from_fn(|k| self.word(k) - other.word(k)),
        }
    }

    // The rows before `end`, ascending. The end is handed in, and asked to be at most `row_limit`: a set does not know the matrix, whose `rows` promises it.
    #[inline]
    pub fn iter(&self, end: usize) -> Rows<'_>
        requires { end ≤ row_limit }
        ensures end { rows_end result ≡ end }
        ensures set { (j : ℕ) → rows_left result j ≡ member self.now j }
        ensures runs { EachRunFrom YieldsRows result (GivesBelow end (member self.now)) }
    {
        let words = &self.words[..];
        Rows {
            word: u64::from(words[0]),
            rest: &words[1..],
            base: 0,
            end,
        }
    }

    // The first row from `from` on and before `end`.
    #[tactic(auto, using(numbers::proofs::Loops::turn_in))]
    pub fn next_from(&self, from: usize, end: usize) -> Option<usize>
        requires { (from ≤ end) × (end ≤ row_limit) }
        ensures { NextIfAny (member self.now) from end result }
    {
        for i in self.iter(end) {
            if from <= i {
                return Some(i);
            }
        }
        None
    }

    // How many rows before `end` a set has.
    #[tactic(auto, using(crate::proofs::Sets::rows_counted))]
    pub fn len(&self, end: usize) -> usize
        requires { end ≤ row_limit }
        ensures { result ≡ set_size end (member self.now) }
    {
        self.iter(end).count()
    }

    // Of the rows before `end` that `can` accepts, the first that none is better than.
    pub fn best<C: Fn(usize) -> bool, B: Fn(usize, usize) -> bool>(
        &self,
        end: usize,
        can: C,
        better: B,
    ) -> Option<usize>
        requires limit { end ≤ row_limit }
        requires can { (i : ℕ) → i < end → Member self.now i → C.pre can i }
        requires better { (i j : ℕ) → i < end → j < end → B.pre better i j }
        ensures { MatchOption result ((i : ℕ) → i < end → Member self.now i → C.post can i false) (λ i. (i < end) × Member self.now i × C.post can i true) }
    {
        let mut best = None;
        for i in self.iter(end) {
            if can(i) {
                best = match best {
                    Some(j) if !better(i, j) => Some(j),
                    _ => Some(i),
                };
            }
        }
        best
    }
}

// The rows of a set before `end`, ascending: what is left of a word, whose first row is `base`, and the words behind it. The word is a number: a `Word` was
// tried, and the proof of no adapter closes over an iterator that holds a struct with a model beside a reference.
#[derive(Clone, Copy)]
pub struct Rows<'a> {
    word: u64,
    rest: &'a [Word],
    base: usize,
    end: usize,
}

impl<'a> Iterator for Rows<'a> {
    type Item = usize;

    ghost use Rattle.matrix.specs.Walks.{YieldsRows, rows_count};

    ghost next_gives = { YieldsRows };

    ghost remaining = { rows_count };

    #[inline]
    fn next(&mut self) -> Option<usize> {
        // Words without a row are passed over, and nothing counts them.
        while Word::from(self.word).is_empty() {
            if self.end.saturating_sub(self.base) <= words::BITS {
                return None;
            }
            let (word, rest) = self.rest.split_first()?;
            self.word = u64::from(*word);
            self.rest = rest;
            self.base += words::BITS;
        }
        let word = Word::from(self.word);
        let b = word.first()?;
        self.word = u64::from(word.without_first());
        if b < self.end.saturating_sub(self.base) {
            Some(self.base + b)
        } else {
            None
        }
    }
}

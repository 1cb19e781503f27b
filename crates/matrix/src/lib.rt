// The covering matrix on slices: sets of columns are words, and sets of rows are arrays of twelve words. The reductions, the bounds and the search go
// through such sets with `for`. Check's sets of codes are sets of columns too: it raises and joins them, and asks which codes are in one.
//
// A row with the columns 0 and 3: `for c in Word::from(9)` goes through 0 and 3.
#![tactic(auto)]

ghost use Rattle.std.specs.Prelude.{◌≡◌, true, ◌&&◌, ℕ, ◌<◌, ◌≤◌, length};
ghost use Rattle.matrix.specs.Sets.{row_limit, has, member};
ghost use Rattle.matrix.specs.Matrix.{row_count, covered, weight_of, weight_limit, Sizes, StandsIn};

pub mod columns;
pub mod rows;
pub mod transposed;
pub mod words;

// The number of rows.
#[inline]
pub fn row_count(words: &[columns::Set]) -> usize
    ensures { result ≡ row_count words.now }
{
    words.len()
}

// The columns that the row i covers. The row is asked to be one of the matrix: a number does not know of which matrix it is a row.
#[inline]
pub fn covered(words: &[columns::Set], i: usize) -> columns::Set
    requires { i < row_count words.now }
    ensures { result ≡ covered words.now i }
{
    words[i]
}

// The weight of the row i.
#[inline]
pub fn weight(weights: &[u32], i: usize) -> u64
    requires { i < length weights.now }
    ensures is { result ≡ weight_of weights.now i }
    ensures small { result < weight_limit }
{
    u64::from(weights[i])
}

// A covering matrix: the columns of each row, and its weight. Two slices and not one of pairs: C lends two.
#[derive(Clone, Copy)]
pub struct Matrix<'a> {
    pub words: &'a [columns::Set],
    pub weights: &'a [u32],
    pub ghost sizes: { Sizes words.now weights.now },
}

impl<'a> Matrix<'a> {
    // The number of rows.
    #[inline]
    pub fn rows(self) -> usize
        ensures is { result ≡ row_count self.entry.words.now }
        ensures few { result ≤ row_limit }
    {
        row_count(self.words)
    }

    // The columns that the row i covers.
    #[inline]
    pub fn columns_of(self, i: usize) -> columns::Set
        requires { i < row_count self.words.now }
        ensures { result ≡ covered self.entry.words.now i }
    {
        covered(self.words, i)
    }

    // The weight of the row i.
    #[inline]
    pub fn weight(self, i: usize) -> u64
        requires { i < row_count self.words.now }
        ensures is { result ≡ weight_of self.entry.weights.now i }
        ensures small { result < weight_limit }
    {
        weight(self.weights, i)
    }
}

// What is left of a matrix: the rows that are live and the columns that are to be covered.
#[derive(Clone, Copy)]
pub struct Subproblem<'a> {
    pub matrix: Matrix<'a>,
    pub live: &'a rows::Set,
    pub undecided: columns::Set,
}

impl<'a> Subproblem<'a> {
    ghost use Rattle.std.specs.Iterator.Runs.{EachRunFrom};
    ghost use Rattle.numbers.specs.Ascending.{GivesBelow};
    ghost use Rattle.matrix.specs.Walks.{rows_end, rows_left, YieldsRows};

    // The live rows, ascending.
    #[inline]
    pub fn rows(&self) -> rows::Rows<'a>
        ensures end { rows_end result ≡ row_count self.now.matrix.words.now }
        ensures set { (j : ℕ) → rows_left result j ≡ member self.now.live.now j }
        ensures runs { EachRunFrom YieldsRows result (GivesBelow (row_count self.now.matrix.words.now) (member self.now.live.now)) }
    {
        self.live.iter(self.matrix.rows())
    }

    // The undecided columns that the row i covers.
    #[inline]
    pub fn columns_of(&self, i: usize) -> columns::Set
        requires { i < row_count self.now.matrix.words.now }
        ensures { (c : ℕ) → has result c ≡ (has (covered self.now.matrix.words.now i) c && has self.now.undecided c) }
    {
        self.matrix.columns_of(i) & self.undecided
    }

    // Whether the row j can stand in for the row i with the columns of a set: it is live, weighs no more than i and covers those columns.
    #[inline]
    pub fn stands_in(&self, set: columns::Set, i: usize, j: usize) -> bool
        requires { (i < row_count self.now.matrix.words.now) × (j < row_count self.now.matrix.words.now) }
        ensures { let p = self.now in result ≡ true → StandsIn p.matrix.words.now p.matrix.weights.now p.live.now set i j }
    {
        set.is_subset(self.matrix.columns_of(j))
            && self.matrix.weight(j) <= self.matrix.weight(i)
            && self.live.contains(j)
    }
}

// What is left of a covering problem, and a row taken from it.
ghost use Rattle.std.specs.Prelude.{◌≡◌, ◌+◌, ◌*◌, ◌≤◌, ◌<◌};
ghost use Rattle.covering.specs.Weighted.{set_size};
ghost use Rattle.matrix.specs.Sets.{row_limit, member, Member};
ghost use Rattle.matrix.specs.Matrix.{row_count, weight_limit};

use matrix::{Matrix, Subproblem, columns, rows};

// What is left of a covering problem: the live rows and the undecided columns, with the rows taken and what those weigh. What they weigh, and `weight_limit`
// for each live row, are together at most `row_limit * weight_limit`. The matrix is handed to the methods: it is that of the whole
// search, and no part of what is left.
#[derive(Clone, Copy)]
pub struct Remaining {
    pub live: rows::Set,
    pub undecided: columns::Set,
    pub taken: rows::Set,
    pub cost: u64,
    pub ghost room: { cost + set_size row_limit (member live) * weight_limit ≤ row_limit * weight_limit },
}

impl Remaining {
    ghost use Rattle.reduction.specs.Steps.{RowTaken};

    // What is left as a sub-problem of the matrix.
    #[inline]
    pub fn left<'a>(&'a self, matrix: Matrix<'a>) -> Subproblem<'a>
        ensures words { result.matrix.words.now ≡ matrix.entry.words.now }
        ensures weights { result.matrix.weights.now ≡ matrix.entry.weights.now }
        ensures live { result.live.now ≡ self.now.live }
        ensures undecided { result.undecided ≡ self.now.undecided }
    {
        Subproblem {
            matrix,
            live: &self.live,
            undecided: self.undecided,
        }
    }

    // Takes the live row r: it is no longer live, its columns are decided, and its weight is counted.
    #[tactic(auto, using(matrix::proofs::Without::left_size))]
    pub fn take_row(&mut self, matrix: Matrix, r: usize)
        requires row { r < row_count matrix.words.now }
        requires lives { Member self.old.live r }
        ensures { RowTaken matrix.entry.words.now matrix.entry.weights.now self.old r self.new }
    {
        self.live.remove(r);
        self.undecided -= matrix.columns_of(r);
        self.taken.insert(r);
        self.cost += matrix.weight(r);
    }
}

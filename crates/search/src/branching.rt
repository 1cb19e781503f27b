// The row to branch on. Any live row would do: which one is a heuristic. This one is the widest for the undecided column whose rows together cover the most
// columns for their number.
ghost use Rattle.std.specs.Prelude.{ℕ, ◌<◌, ◌≤◌};
ghost use Rattle.matrix.specs.Matrix.{row_count};
ghost use Rattle.matrix.specs.Sets.{column_limit, In};
ghost use Rattle.search.specs.Steps.{Branch, ColumnOf, RowFor};

use matrix::{Subproblem, columns};

// How many rows a column has, and the columns that they cover.
#[derive(Clone, Copy)]
struct Column {
    rows: u32,
    near: columns::Set,
}

impl Column {
    // One more row.
    fn add(&mut self, row: columns::Set) {
        self.rows = self.rows.wrapping_add(1);
        self.near |= row;
    }

    // Whether the rows bring more columns in proportion than those of another column, with one row added to each. They are compared by
    // products, as in `incumbent::greedy::cheaper`.
    fn is_denser(&self, other: &Column) -> bool {
        times(other.near.len(), self.rows) < times(self.near.len(), other.rows)
    }
}

// A number of columns times one more than a number of rows.
fn times(columns: usize, rows: u32) -> u64
    requires { columns ≤ column_limit }
{
    columns as u64 * (u64::from(rows) + 1)
}

// The undecided columns with their live rows.
fn columns_seen(problem: &Subproblem) -> [Column; columns::LIMIT] {
    let mut seen = [Column {
        rows: 0,
        near: columns::NONE,
    }; columns::LIMIT];
    for i in problem.rows() {
        let row = problem.columns_of(i);
        for c in row {
            seen[c].add(row);
        }
    }
    seen
}

// The undecided column whose rows together cover the most columns for their number.
// A `for`: `reduce` was tried, and the proof that what it gives is one of the columns does not close.
fn densest_column(problem: &Subproblem) -> usize
    requires { (c : ℕ) × In problem.now.undecided c }
    ensures { ColumnOf problem.now.undecided result }
{
    let seen = columns_seen(problem);
    let mut best = problem.undecided.first().unwrap();
    for c in problem.undecided {
        if seen[c].is_denser(&seen[best]) {
            best = c;
        }
    }
    best
}

// Whether the row i covers more of the undecided columns than the row j, or as many and weighs less.
fn covers_more(problem: &Subproblem, i: usize, j: usize) -> bool
    requires { (i < row_count problem.now.matrix.words.now) × (j < row_count problem.now.matrix.words.now) }
{
    let m = problem.columns_of(i).len();
    let n = problem.columns_of(j).len();
    (n, problem.matrix.weight(i)) < (m, problem.matrix.weight(j))
}

// The live row for the column c that covers the most undecided columns.
#[tactic(auto, using(matrix::proofs::Without::covers_within))]
fn widest_row(problem: &Subproblem, c: usize) -> Option<usize>
    requires { c < column_limit }
    ensures { RowFor problem.now.matrix.words.now problem.now.live.now c result }
{
    problem.live.best(
        problem.matrix.rows(),
        |i| problem.matrix.columns_of(i).contains(c),
        |i, j| covers_more(problem, i, j),
    )
}

// The row to branch on, or `None` where no live row covers some undecided column.
pub fn branching_row(problem: &Subproblem) -> Option<usize>
    requires { (c : ℕ) × In problem.now.undecided c }
    ensures { let p = problem.now in Branch p.matrix.words.now p.live.now p.undecided result }
{
    widest_row(problem, densest_column(problem))
}

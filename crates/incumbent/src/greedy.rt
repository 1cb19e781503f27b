// A greedy cover: rows are taken one by one, and each is the cheapest for the columns that it covers first.
ghost use Rattle.std.specs.Prelude.{ℕ, ◌<◌, ◌≤◌, IfSome, IfNone};
ghost use Rattle.matrix.specs.Sets.{In, Member};
ghost use Rattle.matrix.specs.Matrix.{row_count, CoversColumn};
ghost use Rattle.incumbent.specs.Incumbent.{above_all, Incumbent, Uncovered};
ghost use Rattle.incumbent.specs.Steps.{Counted, Spent};

use crate::{Cover, Gathered};
use matrix::{Matrix, Subproblem, columns, rows};

// Whether the row i covers more of the open columns for its weight than the row j: by products, since a quotient of whole numbers would be rounded.
fn cheaper(matrix: Matrix, open: columns::Set, i: usize, j: usize) -> bool
    requires { (i < row_count matrix.words.now) × (j < row_count matrix.words.now) }
{
    let m = (matrix.columns_of(i) & open).len() as u64;
    let n = (matrix.columns_of(j) & open).len() as u64;
    n * matrix.weight(i) < m * matrix.weight(j)
}

// The rows of a greedy cover, or of as much as can be covered.
fn gather(problem: &Subproblem) -> Gathered
    ensures counted { Counted problem.now.matrix.words.now problem.now.matrix.weights.now result }
    ensures live { (i : ℕ) → Member result.rows i → Member problem.now.live.now i }
    ensures spent { Spent problem.now.matrix.words.now problem.now.live.now problem.now.undecided result.columns }
{
    let matrix = problem.matrix;
    let mut taken = Gathered::none();
    // Nothing counts the rows. Each covers a column that was open, so there are no more of them than columns.
    loop {
        let open = problem.undecided - taken.columns;
        let row = problem.live.best(
            matrix.rows(),
            |i| matrix.columns_of(i).meets(open),
            |i, j| cheaper(matrix, open, i, j),
        );
        match row {
            Some(i) => taken.add(matrix, i),
            None => return taken,
        }
    }
}

// The rows of a greedy cover of the undecided columns by live rows, or of as much as can be covered.
pub fn cover(problem: &Subproblem) -> rows::Set
    ensures live { (i : ℕ) → Member result i → Member problem.now.live.now i }
    ensures covers { let p = problem.now in (i c : ℕ) → Member p.live.now i → In p.undecided c → CoversColumn p.matrix.words.now i c → (j : ℕ) × Member result j × CoversColumn p.matrix.words.now j c }
{
    gather(problem).rows
}

// The same rows, if they are a cover that weighs less than the limit. With a limit that no rows weigh, there is none only where a column has no row.
pub fn cover_below(problem: &Subproblem, limit: u64) -> Option<Cover>
    ensures some { let p = problem.now in IfSome result (λ c. Incumbent p.matrix.words.now p.matrix.weights.now p.live.now p.undecided limit c) }
    ensures none { let p = problem.now in IfNone result (above_all ≤ limit → Uncovered p.matrix.words.now p.live.now p.undecided) }
{
    gather(problem).cover(problem, limit)
}

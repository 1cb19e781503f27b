// Row dominance: a row is dropped for another that covers all its undecided columns and weighs no more. Of equal rows one stays, and a row that covers no
// undecided column is dropped outright.
ghost use Rattle.std.specs.Prelude.{◌≡◌, true, ◌<◌};
ghost use Rattle.matrix.specs.Matrix.{row_count};
ghost use Rattle.reduction.specs.Reduction.{Keeps};
ghost use Rattle.reduction.specs.Steps.{Dominates, Droppable};

use matrix::transposed::ByColumn;
use matrix::{Subproblem, rows};

// Whether the row j is another live row that covers the undecided columns of i and weighs no more.
fn dominates(problem: &Subproblem, i: usize, j: usize) -> bool
    requires { (i < row_count problem.now.matrix.words.now) × (j < row_count problem.now.matrix.words.now) }
    ensures { let p = problem.now in result ≡ true → Dominates p.matrix.words.now p.matrix.weights.now p.live.now p.undecided i j }
{
    j != i && problem.stands_in(problem.columns_of(i), i, j)
}

// Whether the row i can be dropped: it covers no undecided column, or one of the rows that are noted at its first one dominates it. The rows by column stay
// as they were at first while the live rows get fewer, so they are no part of the sub-problem here.
#[tactic(auto, using(numbers::proofs::Closures::asked))]
fn is_droppable(problem: &Subproblem, by_column: &ByColumn, i: usize) -> bool
    requires { i < row_count problem.now.matrix.words.now }
    ensures { let p = problem.now in result ≡ true → Droppable p.matrix.words.now p.matrix.weights.now p.live.now p.undecided i }
{
    match problem.columns_of(i).first() {
        None => true,
        Some(c) => by_column
            .at(c)
            .iter(problem.matrix.rows())
            .any(|j| dominates(problem, i, j)),
    }
}

// The live rows without those that can be dropped, one after the other.
pub fn drop_rows(problem: &Subproblem) -> rows::Set
    ensures { let p = problem.now in Keeps p.matrix.words.now p.matrix.weights.now p.live.now p.undecided result p.undecided }
{
    let by_column = ByColumn::of(problem.matrix.words, problem.live, problem.undecided);
    let mut live = *problem.live;
    for i in problem.rows() {
        let left = Subproblem {
            live: &live,
            ..*problem
        };
        if is_droppable(&left, &by_column, i) {
            live.remove(i);
        }
    }
    live
}

// A column left with one row takes it.
ghost use Rattle.std.specs.Prelude.{◌≡◌, false, ℕ, ◌<◌, IfSome};
ghost use Rattle.matrix.specs.Sets.{column_limit, has};
ghost use Rattle.reduction.specs.Steps.{OneRow, RowFound, Single, Onward};

use crate::Remaining;
use matrix::{Matrix, Subproblem, columns};

// The columns that two or more live rows cover.
#[tactic(auto, using(matrix::proofs::Without::covers_within))]
fn covered_twice(problem: &Subproblem) -> columns::Set
    ensures { (c : ℕ) → has result c ≡ false → OneRow problem.now.matrix.words.now problem.now.live.now c }
{
    let mut coverage = columns::Coverage::new();
    for i in problem.rows() {
        coverage.add(problem.matrix.columns_of(i));
    }
    coverage.twice
}

// The first live row that covers the column c.
#[tactic(auto, using(numbers::proofs::Closures::asked))]
fn row_for(problem: &Subproblem, c: usize) -> Option<usize>
    requires { c < column_limit }
    ensures { IfSome result (RowFound problem.now.matrix.words.now problem.now.live.now c) }
{
    problem
        .rows()
        .find(|i| problem.matrix.columns_of(*i).contains(c))
}

// Takes the row for the column c, if the column is undecided and has one.
#[tactic(auto, using(crate::proofs::Steps::onward_taken))]
fn take(matrix: Matrix, state: &mut Remaining, c: usize)
    requires { Single matrix.words.now state.old.live c }
    ensures { Onward matrix.entry.words.now matrix.entry.weights.now state.old state.new }
{
    if state.undecided.contains(c) {
        if let Some(r) = row_for(&state.left(matrix), c) {
            state.take_row(matrix, r);
        }
    }
}

// Takes each row that is the only one for an undecided column.
pub fn take_forced(matrix: Matrix, state: &mut Remaining)
    ensures { Onward matrix.entry.words.now matrix.entry.weights.now state.old state.new }
{
    let single = state.undecided - covered_twice(&state.left(matrix));
    for c in single {
        take(matrix, state, c);
    }
}

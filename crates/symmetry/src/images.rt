// Images of rows by an exchange of columns: a live row that weighs no more and covers what the row covers after the exchange.
ghost use Rattle.std.specs.Prelude.{◌<◌, IfSome};
ghost use Rattle.matrix.specs.Matrix.{row_count, StandsIn};
ghost use Rattle.symmetry.specs.Steps.{Image};

use crate::exchanges::Exchange;
use matrix::transposed::Indexed;
use matrix::{Subproblem, columns, rows};

// A row among the candidates that stands in for the row i with the columns of a set, if there is one.
#[tactic(auto, using(numbers::proofs::Closures::asked))]
fn stand_in(
    problem: &Subproblem,
    candidates: &rows::Set,
    set: columns::Set,
    i: usize,
) -> Option<usize>
    requires { i < row_count problem.now.matrix.words.now }
    ensures { let p = problem.now in IfSome result (λ j. (j < row_count p.matrix.words.now) × StandsIn p.matrix.words.now p.matrix.weights.now p.live.now set i j) }
{
    candidates
        .iter(problem.matrix.rows())
        .find(|&j| problem.stands_in(set, i, j))
}

// An image of the row i by an exchange, if one is found. It is looked for among the rows noted at the first undecided column of the image, and where that has no
// undecided column, any live row that weighs no more will do: one is looked for among the rows noted at the column 0.
pub fn image(indexed: &Indexed, exchange: &Exchange, i: usize) -> Option<usize>
    requires { i < row_count indexed.now.problem.matrix.words.now }
    ensures below { IfSome result (λ j. j < row_count indexed.now.problem.matrix.words.now) }
    ensures image { let p = indexed.now.problem in IfSome result (λ j. Image p.matrix.words.now p.matrix.weights.now p.live.now p.undecided exchange.now i j) }
{
    let problem = &indexed.problem;
    let set = exchange.of_set(problem.matrix.columns_of(i)) & problem.undecided;
    let c = set.first().unwrap_or(0);
    stand_in(problem, indexed.rows_at(c), set, i)
}

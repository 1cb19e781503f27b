// The orbit of a row under symmetries of what is left of a covering problem. Where a row goes to another by exchanges of columns that keep the live rows, their
// weights and the undecided columns, every cover with the one can be exchanged for a cover with the other that weighs no more.
//
// Rows {0, 1}, {1, 3}, {2, 3} and {0, 2}, each of weight 1, for the columns 0 to 3: the orbit of each row is all four.
#![tactic(auto)]

ghost use Rattle.std.specs.Prelude.{◌<◌};
ghost use Rattle.matrix.specs.Sets.{Member};
ghost use Rattle.matrix.specs.Matrix.{row_count};
ghost use Rattle.symmetry.specs.Symmetry.{Orbit};
ghost use Rattle.symmetry.specs.Steps.{Grown};

use exchanges::{Exchange, VARIABLES};
use matrix::rows;
use matrix::transposed::Indexed;

pub mod exchanges;
pub mod images;

// The rows found so far and the live rows that the exchange takes to one of them, or the rows found alone where it does not keep what is left.
fn grown(indexed: &Indexed, exchange: &Exchange, found: &rows::Set) -> rows::Set
    ensures { let p = indexed.now.problem in Grown p.matrix.words.now p.matrix.weights.now p.live.now p.undecided found.now result }
{
    let problem = &indexed.problem;
    if !problem
        .undecided
        .is_subset(exchange.of_set(problem.undecided))
    {
        return *found;
    }
    let mut more = *found;
    for i in problem.rows() {
        let Some(j) = images::image(indexed, exchange, i) else {
            return *found;
        };
        if found.contains(j) {
            more.insert(i);
        }
    }
    more
}

// The rows found so far, grown by one exchange after the other.
fn grown_by_all(indexed: &Indexed, found: &rows::Set) -> rows::Set
    ensures { let p = indexed.now.problem in Grown p.matrix.words.now p.matrix.weights.now p.live.now p.undecided found.now result }
{
    let mut more = *found;
    for a in 0..VARIABLES {
        for b in 0..VARIABLES {
            more = grown(indexed, &Exchange::of(a, b), &more);
        }
    }
    more
}

// The live rows that exchanges take to the row r, and r: the exchanges are tried until they add no row.
pub fn orbit(indexed: &Indexed, r: usize) -> rows::Set
    requires { (r < row_count indexed.now.problem.matrix.words.now) × Member indexed.now.problem.live.now r }
    ensures { let p = indexed.now.problem in Orbit p.matrix.words.now p.matrix.weights.now p.live.now p.undecided r result }
{
    let end = indexed.problem.matrix.rows();
    let mut found = rows::Set::none();
    found.insert(r);
    // Nothing counts the rounds: the last is the one that adds no row.
    loop {
        let more = grown_by_all(indexed, &found);
        if more.len(end) == found.len(end) {
            return more;
        }
        found = more;
    }
}

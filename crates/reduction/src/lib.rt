// Reductions of a covering problem: row dominance, column dominance, and taking the row of a column that has only one, repeated until no row is dropped or
// taken. A lightest cover of what is left, with the rows taken, is a lightest cover of the whole.
//
// Rows {0, 1}, {1, 2} and {2}, each of weight 1, for the columns 0, 1 and 2: the third row is dropped for the second, and then both rows are taken.
#![tactic(auto)]

ghost use Rattle.reduction.specs.Reduction.{Reduces};
ghost use Rattle.reduction.specs.Steps.{Onward};

use matrix::{Matrix, Subproblem, rows};

pub mod column_dominance;
pub mod forced;
pub mod remaining;
pub mod row_dominance;

pub use remaining::Remaining;

// One round of the reductions.
#[tactic(auto, using(matrix::proofs::Without::size_fewer))]
fn pass(matrix: Matrix, state: &mut Remaining)
    ensures { Onward matrix.entry.words.now matrix.entry.weights.now state.old state.new }
{
    state.undecided = column_dominance::drop_columns(matrix.words, &state.live, state.undecided);
    state.live = row_dominance::drop_rows(&state.left(matrix));
    forced::take_forced(matrix, state);
}

// The reductions, repeated until no row is dropped or taken. It is not inlined: its sets are not to lie on the stack of whoever reduces on the way down.
#[inline(never)]
#[tactic(auto, using(crate::proofs::Steps::start, matrix::proofs::Without::size_fewer, matrix::proofs::Without::size_most))]
pub fn cyclic_core(problem: &Subproblem) -> Remaining
    ensures { let p = problem.now in Reduces p.matrix.words.now p.matrix.weights.now p.live.now p.undecided result }
{
    let mut state = Remaining {
        live: *problem.live,
        undecided: problem.undecided,
        taken: rows::Set::none(),
        cost: 0,
    };
    let end = problem.matrix.rows();
    let mut size = problem.live.len(end);
    // Nothing counts the rounds: the last is the one after which as many rows are live as before.
    loop {
        pass(problem.matrix, &mut state);
        let fewer = state.live.len(end);
        if fewer == size {
            return state;
        }
        size = fewer;
    }
}

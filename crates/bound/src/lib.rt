// Lower bounds: a dual solution found by two heuristic ascents, and checked. What is checked bounds every cover from below, is rounded up in rows, and
// shows which rows no cover below the limit can have.
//
// Three columns and three rows of weight 2, each with two of the columns: the price 1 for each column is a certificate for 3, and 3 asks for two rows, so
// every cover weighs at least 4.
#![tactic(auto)]

ghost use Rattle.std.specs.Prelude.{◌<◌};
ghost use Rattle.bound.specs.Bound.{cost_limit, Bounds};

use matrix::transposed::{ByColumn, Indexed};
use matrix::{Matrix, Subproblem, columns, rows};
use pricing::Prices;
use pricing::dual::{self, Problem};

pub mod certificate;

// Drops the live rows that no cover below the limit can have, as prices for the columns show, and returns a lower bound. It is not inlined: its arrays are not to
// lie on the stack of whoever asks for bounds on the way down.
// The parts of a `Subproblem` come one by one: the rows are lent to be changed. Given back instead, they would come beside the bound in a struct of their own.
#[inline(never)]
fn tighten_by<F: Fn(&Problem) -> Prices>(
    find: F,
    matrix: Matrix,
    live: &mut rows::Set,
    undecided: columns::Set,
    limit: u64,
) -> u64
    requires callable { F.IsAlwaysCallable find }
    requires small { limit < cost_limit }
    ensures { Bounds matrix.entry.words.now matrix.entry.weights.now live.old undecided limit result live.new }
{
    // The ascent reads a copy of the rows: where the rows themselves are handed to it, each level of the search takes 208 bytes more of stack.
    let first = *live;
    let covering = Subproblem {
        matrix,
        live: &first,
        undecided,
    };
    let by_column = ByColumn::of(matrix.words, &first, undecided);
    let prices = find(&Problem {
        indexed: Indexed {
            problem: covering,
            by_column: &by_column,
        },
        scale: 1,
        fee: 0,
    });
    certificate::certified(matrix, live, undecided, limit, &prices)
}

// Drops the live rows that no cover below the limit can have, and returns a lower bound: by an ascent from zero, and by one from a fair share unless the first
// is enough. That the limit is below `cost_limit` is asked, and no type says it: a limit is what is left of another, and each level of a search would make one
// anew.
pub fn tighten(matrix: Matrix, live: &mut rows::Set, undecided: columns::Set, limit: u64) -> u64
    requires { limit < cost_limit }
    ensures { Bounds matrix.entry.words.now matrix.entry.weights.now live.old undecided limit result live.new }
{
    let low = tighten_by(dual::from_zero, matrix, live, undecided, limit);
    if limit <= low {
        return low;
    }
    tighten_by(dual::from_shares, matrix, live, undecided, limit)
}

// Exchanges of columns. The bits of a column's number are the variables, and the exchanges that are tried complement a variable, swap two, or swap two and
// complement both. Which these are is a heuristic: whoever uses one checks that it keeps what is left.
ghost use Rattle.std.specs.Prelude.{◌≡◌, ℕ, ◌*◌, ◌^◌, ◌≤◌, ◌<◌};
ghost use Rattle.matrix.specs.Sets.{column_limit, has};

use matrix::columns;
use std::cmp::Ordering;

// The bits of a column's number.
pub const VARIABLES: usize = 6;

// The columns in which each variable is set. Kept as words: a constant cannot call the function that makes a set of one.
const SET_IN: [u64; VARIABLES] = [
    0xaaaaaaaaaaaaaaaa,
    0xcccccccccccccccc,
    0xf0f0f0f0f0f0f0f0,
    0xff00ff00ff00ff00,
    0xffff0000ffff0000,
    0xffffffff00000000,
];

// An exchange: the columns of a set change places with those that are a distance higher.
#[derive(Clone, Copy)]
pub struct Exchange {
    pub low: columns::Set,
    pub distance: usize,
    pub ghost near: { distance < column_limit },
}

// What a variable adds to a column's number.
fn value(a: usize) -> usize
    requires { a < VARIABLES }
    ensures { (result ≡ 2 ^ a) × (2 * result ≤ column_limit) }
{
    1 << a
}

impl Exchange {
    ghost use Rattle.symmetry.specs.Steps.{partner};

    // The exchange of two variables: a complemented where b is a too, a and b swapped where a is lower, and swapped and complemented where b is.
    pub fn of(a: usize, b: usize) -> Exchange
        requires { (a < VARIABLES) × (b < VARIABLES) }
    {
        let in_a = columns::Set::from(SET_IN[a]);
        let in_b = columns::Set::from(SET_IN[b]);
        let neither = columns::ALL - (in_a | in_b);
        match a.cmp(&b) {
            Ordering::Less => Exchange {
                low: in_a - in_b,
                distance: value(b) - value(a),
            },
            Ordering::Equal => Exchange {
                low: neither,
                distance: value(a),
            },
            Ordering::Greater => Exchange {
                low: neither,
                distance: value(a) + value(b),
            },
        }
    }

    // The columns whose partners are in the set.
    pub fn of_set(self, set: columns::Set) -> columns::Set
        ensures { (c : ℕ) → has result c ≡ has set (partner self c) }
    {
        let high = self.low << self.distance;
        let up = (set << self.distance) & high;
        let down = (set >> self.distance) & (self.low - high);
        up | down | (set - (self.low | high))
    }
}

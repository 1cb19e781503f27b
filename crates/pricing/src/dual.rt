// Dual ascent: prices for the columns, as high as the rows' weights allow. A heuristic: nothing is promised about the prices, since the certificate is
// checked. A row's slack is its capacity, which is its weight less the fee of a row, less the prices of its undecided columns. Prices, capacities and
// slacks are counted in parts of a unit of weight, and added and subtracted modulo 2 ^ 32.
ghost use Rattle.std.specs.Prelude.{◌≡◌, ◌-◌, ◌*◌, ◌%◌, ◌<◌};
ghost use Rattle.matrix.specs.Sets.{column_limit};
ghost use Rattle.matrix.specs.Matrix.{row_count, weight_of, weight_limit};
ghost use Rattle.pricing.specs.Prices.{level_count};

use crate::Prices;
use matrix::transposed::Indexed;
use matrix::{columns, rows};

// A slack for each row.
pub type Slacks = [u32; rows::LIMIT];

// The levels of columns, which are raised one after the other.
const LEVELS: usize = 16;

// A covering problem whose columns get prices, with its rows by column: how many parts a unit of weight has, and the fee of a row in such parts.
#[derive(Clone, Copy)]
pub struct Problem<'a> {
    pub indexed: Indexed<'a>,
    pub scale: u32,
    pub fee: u64,
}

impl<'a> Problem<'a> {
    // What the row i has for its columns: its weight less the fee, in parts, modulo 2 ^ 32.
    fn capacity(&self, i: usize) -> u32
        requires { i < row_count self.now.indexed.problem.matrix.words.now }
        ensures { result ≡ (self.now.scale * weight_of self.now.indexed.problem.matrix.weights.now i - self.now.fee) % weight_limit }
    {
        let all = u64::from(self.scale) * self.indexed.problem.matrix.weight(i);
        (all.saturating_sub(self.fee) % (1 << 32)) as u32
    }

    // The undecided columns by the number of their rows: a level for each number, and the last for all higher ones.
    fn levels(&self) -> [columns::Set; LEVELS] {
        let mut levels = [columns::NONE; LEVELS];
        let problem = &self.indexed.problem;
        let end = problem.matrix.rows();
        for c in problem.undecided {
            let level = level_of(self.indexed.rows_at(c).len(end));
            levels[level] |= columns::Set::only(c);
        }
        levels
    }

    // The undecided columns of the rows of the column c.
    fn near(&self, c: usize) -> columns::Set
        requires { c < column_limit }
    {
        let problem = &self.indexed.problem;
        let mut near = columns::NONE;
        for i in self.indexed.rows_of(c) {
            near |= problem.columns_of(i);
        }
        near
    }

    // Each undecided column at the least fair share of its rows.
    fn shares(&self) -> Prices {
        let mut prices = [u32::MAX; columns::LIMIT];
        for i in self.indexed.problem.rows() {
            let set = self.indexed.problem.columns_of(i);
            let share = self.capacity(i) / (set.len() as u32).max(1);
            cap(&mut prices, set, share);
        }
        prices
    }
}

// The level of a column with n rows.
fn level_of(n: usize) -> usize
    ensures { result < level_count }
{
    n.min(LEVELS - 1)
}

// Cuts the prices of the columns of a set down to a share.
fn cap(prices: &mut Prices, set: columns::Set, share: u32) {
    for c in set {
        prices[c] = prices[c].min(share);
    }
}

// An ascent of a problem: the prices on their way up, and each row's slack.
#[derive(Drop)]
struct Ascent<'a> {
    problem: &'a Problem<'a>,
    prices: Prices,
    slacks: Slacks,
}

impl<'a> Ascent<'a> {
    // Sets the slack of each live row: what it has left once it pays the prices of its undecided columns.
    fn set_slacks(&mut self) {
        let problem = self.problem;
        let covering = &problem.indexed.problem;
        for i in covering.rows() {
            let paid = crate::worth(&self.prices, covering.columns_of(i));
            self.slacks[i] = u64::from(problem.capacity(i)).saturating_sub(paid) as u32;
        }
    }

    // The least slack of the rows of the column c.
    fn least_slack(&self, c: usize) -> u32
        requires { c < column_limit }
    {
        let indexed = &self.problem.indexed;
        let mut least = u32::MAX;
        for i in indexed.rows_of(c) {
            least = least.min(self.slacks[i]);
            if least == 0 {
                return 0;
            }
        }
        least
    }

    // Sets a new price for the column c, and changes the slack of its rows with it.
    fn set_price(&mut self, c: usize, price: u32)
        requires { c < column_limit }
    {
        let amount = self.prices[c].wrapping_sub(price);
        if amount == 0 {
            return;
        }
        self.prices[c] = price;
        let indexed = &self.problem.indexed;
        for i in indexed.rows_of(c) {
            self.slacks[i] = self.slacks[i].wrapping_add(amount);
        }
    }

    // Raises the price of the column c by the least slack of its rows.
    fn raise(&mut self, c: usize)
        requires { c < column_limit }
    {
        let price = self.prices[c].wrapping_add(self.least_slack(c));
        self.set_price(c, price);
    }

    // Raises the prices of the columns of a set.
    fn raise_all(&mut self, set: columns::Set) {
        for c in set {
            self.raise(c);
        }
    }

    // Puts the prices of the columns of a set back to what they were.
    fn restore(&mut self, set: columns::Set, saved: &Prices) {
        for c in set {
            self.set_price(c, saved[c]);
        }
    }

    // Raises the prices of the undecided columns, those with few rows first.
    fn ascend(&mut self) {
        for level in self.problem.levels() {
            self.raise_all(level);
        }
    }

    // Releases the price of the column c and raises those of its neighbours, unless the prices are then worth less together than they were. Returns what
    // they are worth now.
    fn retry(&mut self, worth: u64, c: usize) -> u64
        requires { c < column_limit }
    {
        if self.prices[c] == 0 {
            return worth;
        }
        let saved = self.prices;
        let near = self.problem.near(c);
        self.set_price(c, 0);
        self.raise_all(near - columns::Set::only(c));
        self.raise(c);
        let changed = crate::worth(&self.prices, self.problem.indexed.problem.undecided);
        if worth <= changed {
            return changed;
        }
        self.restore(near, &saved);
        worth
    }

    // Retries each undecided column.
    fn improve(&mut self) {
        let undecided = self.problem.indexed.problem.undecided;
        let mut worth = crate::worth(&self.prices, undecided);
        for c in undecided {
            worth = self.retry(worth, c);
        }
    }
}

// Prices by an ascent from those given, and a pass that improves them.
fn ascended<'a>(problem: &'a Problem<'a>, prices: Prices) -> Prices {
    let mut ascent = Ascent {
        problem,
        prices,
        slacks: [0; rows::LIMIT],
    };
    ascent.set_slacks();
    ascent.ascend();
    ascent.improve();
    ascent.prices
}

// Prices by an ascent from zero.
pub fn from_zero(problem: &Problem) -> Prices {
    ascended(problem, [0; columns::LIMIT])
}

// Prices by an ascent from each column's fair share of its rows.
pub fn from_shares(problem: &Problem) -> Prices {
    ascended(problem, problem.shares())
}

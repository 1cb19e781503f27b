// The certificate: prices for the columns such that no live row's undecided columns are worth more than the row weighs. Then every cover weighs at least
// what all undecided columns are worth. This is checked here, whoever found the prices.
ghost use Rattle.std.specs.Prelude.{◌≡◌, ℕ, ◌+◌, ◌<◌, ◌≤◌, true, IfSome};
ghost use Rattle.matrix.specs.Matrix.{row_count, weight_of, Low};
ghost use Rattle.pricing.specs.Prices.{worth_limit, worth, Valued};
ghost use Rattle.bound.specs.Bound.{cost_limit, Kept, Bounds};
ghost use Rattle.bound.specs.Steps.{row_columns, Pays, Feasible, Ranges, Rounded, Certificate};

use matrix::{Matrix, Subproblem, columns, rows};
pub use pricing::Prices;

// A sub-problem with prices for its columns.
#[derive(Clone, Copy)]
struct Offer<'a, 'b> {
    problem: Subproblem<'a>,
    prices: &'b Prices,
}

impl<'a, 'b> Offer<'a, 'b> {
    // What the undecided columns of the row i are worth together.
    fn row_worth(&self, i: usize) -> u64
        requires { i < row_count self.now.problem.matrix.words.now }
        ensures { Valued self.now.prices.now (row_columns self.now.problem.matrix.words.now self.now.problem.undecided i) result }
    {
        pricing::worth(self.prices, self.problem.columns_of(i))
    }

    // Whether the undecided columns of the row i are worth no more than it weighs.
    fn pays(&self, i: usize) -> bool
        requires { i < row_count self.now.problem.matrix.words.now }
        ensures { let p = self.now.problem in result ≡ true → Pays p.matrix.words.now p.matrix.weights.now p.undecided self.now.prices.now i }
    {
        self.row_worth(i) <= self.problem.matrix.weight(i)
    }

    // Whether each live row pays.
    #[tactic(auto, using(numbers::proofs::Closures::asked))]
    fn is_feasible(&self) -> bool
        ensures { let p = self.now.problem in result ≡ true → Feasible p.matrix.words.now p.matrix.weights.now p.live.now p.undecided self.now.prices.now }
    {
        self.problem.rows().all(|i| self.pays(i))
    }
}

// The least and the largest weight of some rows.
#[derive(Clone, Copy)]
pub struct Range {
    pub least: u64,
    pub most: u64,
    pub ghost ordered: { least ≤ most },
}

// The range of the live rows' weights, if there is a row. The largest counts as 1 at least.
fn weight_range(problem: &Subproblem) -> Option<Range>
    ensures { IfSome result (λ r. Ranges problem.now.matrix.weights.now problem.now.live.now (row_count problem.now.matrix.words.now) r.least r.most) }
{
    let mut least = u64::from(u32::MAX);
    let mut most = 1;
    for i in problem.rows() {
        let weight = problem.matrix.weight(i);
        least = least.min(weight);
        most = most.max(weight);
    }
    // Without a row the least, which begins at the highest weight, is above the largest, which begins at 1. `min` and `max` would go through the rows twice.
    if least <= most {
        Some(Range { least, most })
    } else {
        None
    }
}

// A bound rounded up in rows: at least this many rows are needed, each of at least the least weight.
#[tactic(auto, using(crate::proofs::Pricing::rounded_low, crate::proofs::Pricing::rows_small))]
fn rounded(problem: &Subproblem, low: u64) -> u64
    requires { low ≤ worth_limit }
    ensures { Rounded problem.now.matrix.words.now problem.now.matrix.weights.now problem.now.live.now low result }
{
    match weight_range(problem) {
        Some(weight) => low.max(weight.least * low.div_ceil(weight.most)),
        None => low,
    }
}

// A certificate: the prices, what the undecided columns are worth in all, and the limit that covers are to stay below.
#[derive(Clone, Copy)]
struct DualSolution<'a, 'b> {
    offer: Offer<'a, 'b>,
    limit: u64,
    total: u64,
    ghost shows: { Certificate offer.problem.matrix.words.now offer.problem.matrix.weights.now offer.problem.live.now offer.problem.undecided limit offer.prices.now total },
}

impl<'a, 'b> DualSolution<'a, 'b> {
    // A lower bound: the total rounded up in rows.
    fn low(&self) -> u64
        ensures { let p = self.now.offer.problem in (k : ℕ) → k ≤ result → Low p.matrix.words.now p.matrix.weights.now p.live.now p.undecided k }
    {
        rounded(&self.offer.problem, self.total)
    }

    // Whether every cover with the row i weighs as much as the limit: the row, and what it leaves.
    fn excludes(&self, i: usize) -> bool
        requires { i < row_count self.now.offer.problem.matrix.words.now }
        ensures { let o = self.now.offer in result ≡ true → self.now.limit + worth o.prices.now (row_columns o.problem.matrix.words.now o.problem.undecided i) ≤ weight_of o.problem.matrix.weights.now i + self.now.total }
    {
        let paid = self.offer.row_worth(i);
        self.limit + paid <= self.offer.problem.matrix.weight(i) + self.total
    }

    // The live rows without those that are in no cover below the limit.
    fn kept(&self) -> rows::Set
        ensures { let p = self.now.offer.problem in Kept p.matrix.words.now p.matrix.weights.now p.live.now p.undecided self.now.limit result }
    {
        let mut kept = *self.offer.problem.live;
        for i in self.offer.problem.rows() {
            if self.excludes(i) {
                kept.remove(i);
            }
        }
        kept
    }
}

// What prices for the columns show: nothing, unless they are a certificate. Drops the live rows that no cover below the limit can have, and returns a lower bound.
// The parts of a `Subproblem` come one by one, for the reason told at `crate::tighten_by`.
pub fn certified(
    matrix: Matrix,
    live: &mut rows::Set,
    undecided: columns::Set,
    limit: u64,
    prices: &Prices,
) -> u64
    requires { limit < cost_limit }
    ensures { Bounds matrix.entry.words.now matrix.entry.weights.now live.old undecided limit result live.new }
{
    let problem = Subproblem {
        matrix,
        live,
        undecided,
    };
    let offer = Offer { problem, prices };
    if !offer.is_feasible() {
        return 0;
    }
    let solution = DualSolution {
        offer,
        limit,
        total: pricing::worth(prices, undecided),
    };
    let low = solution.low();
    if low < limit {
        *live = solution.kept();
    }
    low
}

// Prices for the columns of a covering problem and a fee for each row, by heuristics: dual ascent (`dual`) and a linear program (`simplex`). Nothing is promised
// of the prices that they find but that finding them ends: whoever uses prices adds up what they show. What a set of columns is worth is told exactly.
// No call reads `Recalled::shares` and `Priced::optimal` of the linear program: they are for whoever branches by it.
//
// Three columns and three rows of weight 2, each with two of the columns: from a fair share each column gets the price 1, or `SCALE` where prices are
// counted in such parts.
#![tactic(auto)]

ghost use Rattle.matrix.specs.Sets.{has};
ghost use Rattle.pricing.specs.Prices.{Valued};

use matrix::columns;

pub mod dual;
pub mod simplex;

// A price for each column, in parts of a unit of weight.
pub type Prices = [u32; columns::LIMIT];

// The parts of a unit of weight in which the linear program counts prices.
pub const SCALE: u32 = 4096;

// What the columns of a set are worth together.
#[tactic(auto, unfolding(covering::specs::Sum::sum))]
pub fn worth(prices: &Prices, set: columns::Set) -> u64
    ensures { Valued prices.now (has set) result }
{
    let mut total = 0;
    for c in set {
        total += u64::from(prices[c]);
    }
    total
}

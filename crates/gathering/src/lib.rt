// The codes that a list of rows matches, gathered in one pass over the rows. A set of codes is a set of columns, column c for code c.
//
//     gathering::gather(2, Rows::new(&[2, 1], &[2, 3])?)      // Ok, the bits of 14: the row 1- matches 2 and 3, the row 01 matches 1
//     gathering::gather(2, Rows::new(&[2, 1], &[2, 2])?)      // Err(Refusal::UnformedRow): value 1 has a one outside care 2
#![tactic(auto)]

ghost use Rattle.std.specs.Prelude.{◌≡◌, true, not, ◌&&◌, ◌||◌, ℕ, ◌<◌, ◌≤◌, ◌^◌};
ghost use Rattle.cube.specs.Words.{formed, row_matches, rows_of};
ghost use Rattle.cube.specs.Calls.{widest};
ghost use Rattle.matrix.specs.Sets.{has_bit, has, has_raised};
ghost use Rattle.gathering.specs.Gathered.{HoldsExactly, Gathers};

use cube::{Refusal, Row};
use lists::Rows;
use matrix::columns;
use matrix::words::Word;

// The codes so far and, if a bit is not tested, each of them raised by the weight of that bit.
#[tactic(auto, using(crate::proofs::RowCodes::weight_most))]
fn with_bit(care: u8, bit: usize, matched: columns::Set) -> columns::Set
    requires { bit < widest }
    ensures { (c : ℕ) → has result c ≡ (has matched c || (not (has_bit care bit) && has_raised matched (2 ^ bit) c)) }
{
    if Word::from(u64::from(care)).contains(bit) {
        return matched;
    }
    matched | matched << spelling::codes(bit)
}

// The codes that a formed row matches. Its value, which has a zero at each untested bit, is one; at each untested bit there are as many again.
fn row_codes(n: usize, row: Row) -> columns::Set
    requires { (n ≤ widest) × (formed n row ≡ true) }
    ensures { HoldsExactly n (row_matches row) result }
{
    let mut matched = columns::Set::only(usize::from(row.value));
    for bit in 0..n {
        matched = with_bit(row.care, bit, matched);
    }
    matched
}

// Gathers the codes that any row matches. Each row is looked at once: its form is tested, and its codes are added.
pub fn gather(n: usize, rows: Rows) -> Result<columns::Set, Refusal>
    requires { n ≤ widest }
    ensures { Gathers n (rows_of rows.entry.values.now rows.entry.cares.now) result }
{
    let mut matched = columns::NONE;
    for row in rows {
        if !lists::is_formed(n, row) {
            return Err(Refusal::UnformedRow);
        }
        matched |= row_codes(n, row);
    }
    Ok(matched)
}

// A list of rows in two arrays: what it is refused for, and a walk over its rows.
//
//     Rows::formed(4, &[8], &[8])     // Ok: value 8 and care 8 are a formed row
//     Rows::formed(4, &[8], &[7])     // Err(Refusal::UnformedRow): value 8 has a one outside care 7
#![tactic(auto, using(cube::proofs::Calls::refusals, cube::proofs::Lists::rows_length))]

ghost use Rattle.std.specs.Prelude.{◌≡◌, ◌≤◌, [], ◌∷◌, length, eqb, IfOk, OnOk};
ghost use Rattle.cube.specs.Words.{formed, all_formed, rows_of};
ghost use Rattle.cube.specs.Calls.{most_rows, bad_row, list_conditions, when, first_of, refusal_of};
ghost use Rattle.lists.specs.Steps.{length_conditions};
ghost use Rattle.lists.specs.Walks.{rows_left};
ghost use Rattle.std.specs.Iterator.{YieldsFirst, item_count};

use cube::{Refusal, Row};
use std::slice::Iter;

// The most rows of a list.
const MOST_ROWS: usize = 255;

// The bits of a value, and of a care.
pub const BITS: usize = u8::BITS as usize;

// Whether a row is formed: care is below 2^n, and value has no one outside care. Every care is below the power of its own bits.
#[tactic(auto, unfolding(cube::specs::Words::formed))]
pub fn is_formed(n: usize, row: Row) -> bool
    ensures { result ≡ formed n row }
{
    usize::from(row.care) < 1 << n.min(BITS) && row.value & row.care == row.value
}

// A list of rows in two arrays: row i is place i of the values with place i of the cares. Not a slice of `Row`s, since C lends two arrays; and no width stands in
// it, since `new` makes a list without one, and Check tests the form of a row while it gathers.
#[derive(Clone, Copy)]
pub struct Rows<'a> {
    pub values: &'a [u8],
    pub cares: &'a [u8],
    pub ghost paired: { length values.now ≡ length cares.now },
}

// The rows of a list, in order.
#[derive(Drop)]
pub struct Each<'a> {
    values: Iter<'a, u8>,
    cares: Iter<'a, u8>,
}

impl Iterator for Each<'_> {
    type Item = Row;

    ghost next_gives = { YieldsFirst rows_left };

    ghost remaining = { item_count rows_left };

    #[inline]
    #[tactic(auto, using(crate::proofs::Walks::no_care), unfolding(cube::specs::Words::rows_of))]
    fn next(&mut self) -> Option<Row> {
        let value = *self.values.next()?;
        let care = *self.cares.next()?;
        Some(Row { value, care })
    }
}

impl<'a> IntoIterator for Rows<'a> {
    type Item = Row;

    type IntoIter = Each<'a>;

    ghost into_iter_gives = { λ rows each. rows_left each ≡ rows_of rows.values.now rows.cares.now };

    #[inline]
    fn into_iter(self) -> Each<'a> {
        Each {
            values: self.values.iter(),
            cares: self.cares.iter(),
        }
    }
}

impl<'a> Rows<'a> {
    // The list in two arrays: refused for different lengths, then for more than 255 rows.
    pub fn new(values: &'a [u8], cares: &'a [u8]) -> Result<Rows<'a>, Refusal>
        ensures refusal { refusal_of result ≡ first_of (length_conditions values.now cares.now) }
        ensures rows { IfOk result (λ r. (r.values.now ≡ values.now) × (r.cares.now ≡ cares.now)) }
        ensures few { OnOk result (length values.now ≤ most_rows) }
    {
        if values.len() != cares.len() {
            return Err(Refusal::UnequalLengths);
        }
        if MOST_ROWS < values.len() {
            return Err(Refusal::TooManyRows);
        }
        Ok(Rows { values, cares })
    }

    // How many rows it has.
    pub fn len(self) -> usize
        ensures { result ≡ length self.entry.values.now }
    {
        self.values.len()
    }

    // Whether it has no row.
    pub fn is_empty(self) -> bool
        ensures { result ≡ eqb (length self.entry.values.now) 0 }
    {
        self.values.is_empty()
    }

    // Whether every row is formed at width n.
    fn all_formed(self, n: usize) -> bool
        ensures { result ≡ all_formed n (rows_of self.entry.values.now self.entry.cares.now) }
    {
        self.into_iter().all(|row| is_formed(n, row))
    }

    // Refuses a row that is not formed at width n.
    pub fn check_formed(self, n: usize) -> Result<(), Refusal>
        ensures { refusal_of result
            ≡ first_of (when (bad_row n (rows_of self.entry.values.now self.entry.cares.now)) 7 ∷ []) }
    {
        if self.all_formed(n) {
            Ok(())
        } else {
            Err(Refusal::UnformedRow)
        }
    }

    // The list of rows of width n in two arrays: refused as `new` refuses it, then for a row that is not formed.
    pub fn formed(n: usize, values: &'a [u8], cares: &'a [u8]) -> Result<Rows<'a>, Refusal>
        ensures refusal { refusal_of result ≡ first_of (list_conditions n values.now cares.now) }
        ensures rows { IfOk result (λ r. (r.values.now ≡ values.now) × (r.cares.now ≡ cares.now)) }
        ensures few { OnOk result (length values.now ≤ most_rows) }
    {
        let rows = Rows::new(values, cares)?;
        rows.check_formed(n)?;
        Ok(rows)
    }
}

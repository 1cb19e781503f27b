// A table that a call takes: its width and its cells, and what every call on a table refuses first.
//
//     Table::new(2, &[0, 1, 1])           // Err(Refusal::TableLength): three cells, not four
//     Table::new(2, &[0, 1, 1, 2])        // Ok: the table of two variables
#![tactic(auto, using(cube::proofs::Calls::refusals))]

ghost use Rattle.std.specs.Prelude.{◌≡◌, ◌≤◌, ◌^◌, length, IfOk, OnOk};
ghost use Rattle.cube.specs.Calls.{widest, bad_cell, table_conditions, first_of, refusal_of};
ghost use Rattle.tables.specs.Listing.{primes_refuses};

use cube::Refusal;

// A table of `width` variables: a cell for each code, 1 where it is wanted, 0 where it is barred, 2 where it is free. Cells are bytes and no enum: C lends
// bytes, and whole tables are handed on as slices of them.
#[derive(Clone, Copy)]
pub struct Table<'a> {
    pub width: usize,
    pub cells: &'a [u8],
    pub ghost narrow: { width ≤ widest },
    pub ghost sized: { length cells.now ≡ 2 ^ width },
}

// Whether a cell is above 2.
fn bad_cell(cells: &[u8]) -> bool
    ensures { result ≡ bad_cell cells.now }
{
    cells.iter().any(|&cell| 2 < cell)
}

impl<'a> Table<'a> {
    // The table of n variables with these cells: refused for a bad width, for a wrong number of cells, then for a cell above 2.
    pub fn new(n: usize, cells: &'a [u8]) -> Result<Table<'a>, Refusal>
        ensures refusal { refusal_of result ≡ first_of (table_conditions n cells.now) }
        ensures table { IfOk result (λ t. (t.width ≡ n) × (t.cells.now ≡ cells.now)) }
    {
        spelling::check_width(n)?;
        if cells.len() != spelling::codes(n) {
            return Err(Refusal::TableLength);
        }
        if bad_cell(cells) {
            return Err(Refusal::Cell);
        }
        Ok(Table { width: n, cells })
    }

    // The same for a call that lists cubes of the table into so many lent places: refused, last, for fewer than 3^n places. Each such call is this, `?` and its
    // list, and not one function: that would take the list as a closure, with what it promises, and a call of it would be as long.
    pub fn with_places(n: usize, cells: &'a [u8], places: usize) -> Result<Table<'a>, Refusal>
        ensures refusal { refusal_of result ≡ primes_refuses n cells.now places }
        ensures table { IfOk result (λ t. (t.width ≡ n) × (t.cells.now ≡ cells.now)) }
        ensures enough { OnOk result (3 ^ n ≤ places) }
    {
        let table = Table::new(n, cells)?;
        if places < table.cubes() {
            return Err(Refusal::ShortOutput);
        }
        Ok(table)
    }

    // The number of its cubes. That lent places suffice for them is asked by each function that lists cubes: a type of a table and places would hold what is
    // lent to be changed, and every contract would tell of the places through it.
    pub fn cubes(self) -> usize
        ensures { result ≡ 3 ^ self.entry.width }
    {
        spelling::cubes(self.width)
    }
}

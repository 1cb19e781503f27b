// The keep-out call, for chips that pass everything except what a row matches: a shortest list that matches every barred code and no wanted one. Plan
// writes it, for the table in which wanted and barred codes have changed places.
//
//     let mut values = [0u8; 2];
//     let mut cares = [0u8; 2];
//     keep_out::keep_out(2, &[0, 1, 1, 1], &mut values, &mut cares)   // Ok: 1 row, 2 bits: 00, value 0, care 3
#![tactic(auto, using(cube::proofs::Calls::refusals))]

ghost use Rattle.std.specs.Prelude.{◌≡◌, ◌≤◌, ◌^◌, length};
ghost use Rattle.cube.specs.Calls.{widest};
ghost use Rattle.keep_out.specs.KeepOut.{PlansKeepOut};
ghost use Rattle.keep_out.specs.Theorems.{exchanged_cell, exchanged};

use arrayvec::ArrayVec;
use cube::Refusal;
use plan::Totals;
use spelling::MOST_CODES;

// A cell with wanted and barred exchanged.
fn exchanged_cell(cell: u8) -> u8
    ensures { result ≡ exchanged_cell cell }
{
    match cell {
        0 => 1,
        1 => 0,
        _ => cell,
    }
}

// The cells of a table with wanted and barred codes exchanged.
fn exchange(table: &[u8]) -> ArrayVec<u8, MOST_CODES>
    requires { length table.now ≤ 2 ^ widest }
    ensures { result.items ≡ exchanged table.now }
{
    let mut cells = ArrayVec::new();
    for cell in table {
        cells.push(exchanged_cell(*cell));
    }
    cells
}

// Writes a shortest keep-out list for a table into the first places of both arrays, ascending by cube number, and answers its totals.
pub fn keep_out(
    n: usize,
    table: &[u8],
    values: &mut [u8],
    cares: &mut [u8],
) -> Result<Totals, Refusal>
    ensures { PlansKeepOut n table.now values.old cares.old values.new cares.new result }
{
    let accepted = plan::accept(n, table, values.len(), cares.len())?;
    let cells = exchange(accepted.cells);
    plan::plan(n, cells.as_slice(), values, cares)
}

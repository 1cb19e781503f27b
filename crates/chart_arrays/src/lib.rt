// The chart: a row for each prime that serves, a column for each wanted code.
//
//     let table = Table::new(2, &[1, 0, 2, 1])?;
//     chart_arrays::cube_columns(table, 2)        // cube 02 matches 0 and 1, of which 0 is wanted: the word 1
#![tactic(auto)]

ghost use Rattle.std.specs.Prelude.{◌≡◌, [], ◌==◌, ◌&&◌, ◌<◌, ◌≤◌, ◌^◌, length};
ghost use Rattle.numbers.specs.Below.{word_of};
ghost use Rattle.cube.specs.Words.{on_set, row_matches};
ghost use Rattle.matrix.specs.Sets.{column_limit};
ghost use Rattle.chart_arrays.specs.Columns.{columns_of};
ghost use Rattle.chart_arrays.specs.Rows.{chart_row, chart_of};
ghost use Rattle.chart_arrays.specs.Steps.{row_column};

use arrayvec::ArrayVec;
use matrix::columns;
use spelling::{Cube, MOST_CUBES};
use tables::Table;

// A chart row: cube number, code word, tested bits, laid out as C would lay it out.
#[repr(C)]
#[derive(Clone, Copy, Default)]
pub struct ChartRow {
    pub cube: u16,
    pub word: columns::Set,
    pub literals: u8,
}

// Whether a cell is wanted and a row matches its code.
#[tactic(auto, unfolding(cube::specs::Words::row_matches))]
fn is_column(cell: u8, code: usize, value: usize, care: usize) -> bool
    ensures { result ≡ (cell == 1 && row_matches (record { value = value; care = care }) code) }
{
    cell == 1 && code & care == value
}

// The wanted codes that a row matches: all of them for value 0 and care 0. The cells may be any number up to the columns of a set, and the value and the care
// any numbers, which a `Row` would not hold.
#[tactic(auto, using(crate::proofs::Columns::column_turn))]
pub fn row_columns(table: &[u8], value: usize, care: usize) -> columns::Set
    requires { length table.now ≤ column_limit }
    ensures { result ≡ word_of (length table.now) (row_column table.now (record { value = value; care = care })) }
{
    let mut word = columns::NONE;
    for (code, cell) in table.iter().enumerate() {
        if is_column(*cell, code, value, care) {
            word = word.with_next(code);
        }
    }
    word
}

// The wanted codes: those that a row without tested bits matches.
pub fn wanted(table: Table) -> columns::Set
    ensures { result ≡ word_of (2 ^ table.entry.width) (on_set table.entry.cells.now) }
{
    row_columns(table.cells, 0, 0)
}

// The wanted codes that cube q matches. That q is a cube of the table is asked, since a number does not know of which width it is a cube.
pub fn cube_columns(table: Table, q: usize) -> columns::Set
    requires { q < 3 ^ table.width }
    ensures { result ≡ columns_of table.entry.width table.entry.cells.now q }
{
    let width = table.width;
    let row = Cube { width, number: q }.row();
    row_columns(table.cells, usize::from(row.value), usize::from(row.care))
}

// The chart's row of cube q.
pub fn row(table: Table, q: u16) -> ChartRow
    requires { q < 3 ^ table.width }
    ensures { result ≡ chart_row table.entry.width table.entry.cells.now q }
{
    let width = table.width;
    let number = usize::from(q);
    let care = Cube { width, number }.row().care;
    ChartRow {
        cube: q,
        word: cube_columns(table, number),
        literals: care.count_ones() as u8,
    }
}

// Lists the rows of the chart of a table in an empty list that is lent, in the order of the primes: a list that is given back would be copied. The primes are
// listed in lent places first, as Primes lists them for C.
pub fn list_rows(table: Table, rows: &mut ArrayVec<ChartRow, MOST_CUBES>)
    requires { rows.old.items ≡ [] }
    ensures { rows.new.items ≡ chart_of table.entry.width table.entry.cells.now }
{
    let mut cubes = [0u16; MOST_CUBES];
    let count = primes::list_serving_primes(table, &mut cubes);
    for q in &cubes[..count] {
        rows.push(row(table, *q));
    }
}

// The chart of a table: its rows, in the order of the primes.
pub fn build(table: Table) -> ArrayVec<ChartRow, MOST_CUBES>
    ensures { result.items ≡ chart_of table.entry.width table.entry.cells.now }
{
    let mut rows = ArrayVec::new();
    list_rows(table, &mut rows);
    rows
}

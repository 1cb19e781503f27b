// Plan: a shortest list for a table. The chart's rows get the weight 10,000 + tested bits, a minimum cover is searched
// for, and its cubes are spelled into the two arrays.
//
//     let mut values = [0u8; 2];
//     let mut cares = [0u8; 2];
//     plan::plan(2, &[0, 1, 1, 1], &mut values, &mut cares)   // Ok: 2 rows, 2 bits: 1- and -1, values 2 1, cares 2 1
#![tactic(auto, using(cube::proofs::Calls::refusals))]

ghost use Rattle.std.specs.Prelude.{◌≡◌, ◌-◌, ◌≤◌, ◌^◌, length, map, IfOk, OnOk};
ghost use Rattle.numbers.specs.Below.{those};
ghost use Rattle.cube.specs.Words.{value_of, care_of};
ghost use Rattle.cube.specs.Calls.{widest, refusal_of, written};
ghost use Rattle.matrix.specs.Sets.{row_limit, member};
ghost use Rattle.plan.specs.Plan.{plan_places, plan_refuses, Plans};
ghost use Rattle.plan.specs.Steps.{words_of, Lightest, Chosen, picked_cubes, Spellable};
ghost use Rattle.search.specs.Search.{Coverable};

use arrayvec::ArrayVec;
use chart_arrays::ChartRow;
use cube::Refusal;
use incumbent::Cover;
use matrix::{Matrix, columns, rows};
use spelling::{Cube, MOST_CODE_PAIRS, MOST_CUBES};
use tables::Table;

// What a row weighs, not counting its tested bits.
const ROW_WEIGHT: u32 = 10_000;

// The number of rows of a list, and the sum of their tested bits. Fewer rows come first, and then fewer bits.
#[derive(Clone, Copy, PartialEq, Eq, PartialOrd, Ord)]
pub struct Totals {
    pub rows: usize,
    pub bits: usize,
}

// A shortest list: its cubes, ascending, and their tested bits.
#[derive(Drop)]
struct CubeList {
    cubes: ArrayVec<u16, MOST_CODE_PAIRS>,
    bits: usize,
}

// The lightest selection of chart rows that covers the columns.
fn lightest(rows: &[ChartRow], columns: columns::Set) -> Cover
    requires few { length rows.now ≤ 3 ^ widest }
    requires coverable { Coverable (words_of rows.now) columns }
    ensures { Lightest rows.now columns result }
{
    let mut words: ArrayVec<columns::Set, MOST_CUBES> = ArrayVec::new();
    let mut weights: ArrayVec<u32, MOST_CUBES> = ArrayVec::new();
    for row in rows {
        words.push(row.word);
        weights.push(ROW_WEIGHT + u32::from(row.literals));
    }
    let matrix = Matrix {
        words: words.as_slice(),
        weights: weights.as_slice(),
    };
    search::minimum_cover(matrix, columns).cover.unwrap()
}

// The cubes of the picked rows, ascending.
fn picked_cubes(picked: &rows::Set, rows: &[ChartRow]) -> ArrayVec<u16, MOST_CODE_PAIRS>
    requires few { length rows.now ≤ row_limit }
    requires room { length (those (length rows.now) (member picked.now)) ≤ 2 ^ (widest - 1) }
    ensures { result.items ≡ picked_cubes picked.now rows.now }
{
    let mut cubes = ArrayVec::new();
    for i in picked.iter(rows.len()) {
        cubes.push(rows[i].cube);
    }
    cubes
}

// A shortest list for a table.
fn shortest(table: Table) -> CubeList
    ensures { Chosen table.entry.width table.entry.cells.now result.cubes.items result.bits }
{
    let mut chart = ArrayVec::new();
    chart_arrays::list_rows(table, &mut chart);
    let rows = chart.as_slice();
    let found = lightest(rows, chart_arrays::wanted(table));
    let cubes = picked_cubes(&found.rows, rows);
    let bits = found.weight as usize - ROW_WEIGHT as usize * cubes.len();
    CubeList { cubes, bits }
}

// Writes the values and the cares of some cubes, from the first place on. A place is an index: it is one in two arrays, as C lends them.
#[tactic(auto, using(chart_arrays::proofs::Written::map_written))]
fn write_rows(width: usize, cubes: &[u16], values: &mut [u8], cares: &mut [u8])
    requires { Spellable width cubes.now values.old cares.old }
    ensures values_are { values.new ≡ written 0 (map (value_of width) cubes.now) values.old }
    ensures cares_are { cares.new ≡ written 0 (map (care_of width) cubes.now) cares.old }
{
    for (i, q) in cubes.iter().enumerate() {
        let number = usize::from(*q);
        let row = Cube { width, number }.row();
        values[i] = row.value;
        cares[i] = row.care;
    }
}

// The table that Plan takes with arrays of these lengths: refused as every table is, then for fewer than 2^(n-1) places in either array.
pub fn accept<'a>(
    n: usize,
    table: &'a [u8],
    values: usize,
    cares: usize,
) -> Result<Table<'a>, Refusal>
    ensures refusal { refusal_of result ≡ plan_refuses n table.now values cares }
    ensures table { IfOk result (λ t. (t.width ≡ n) × (t.cells.now ≡ table.now)) }
    ensures places { OnOk result ((plan_places n ≤ values) × (plan_places n ≤ cares)) }
{
    let accepted = Table::new(n, table)?;
    let places = spelling::codes(n - 1);
    if values < places || cares < places {
        return Err(Refusal::ShortOutput);
    }
    Ok(accepted)
}

// Writes a shortest list for a table into the first places of both arrays, ascending by cube number, and answers its totals. A list is lent as two arrays
// here and by the other calls that write one, as C has it.
pub fn plan(n: usize, table: &[u8], values: &mut [u8], cares: &mut [u8]) -> Result<Totals, Refusal>
    ensures { Plans n table.now values.old cares.old values.new cares.new result }
{
    let table = accept(n, table, values.len(), cares.len())?;
    let list = shortest(table);
    write_rows(n, list.cubes.as_slice(), values, cares);
    Ok(Totals {
        rows: list.cubes.len(),
        bits: list.bits,
    })
}

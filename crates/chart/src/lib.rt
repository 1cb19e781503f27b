// Chart: a lent list of rows, one per prime that serves. `chart_arrays::row` makes each; here it is put in its place of the lent rows.
//
//     let mut rows = [ChartRow::default(); 9];
//     chart::chart(2, &[1, 0, 0, 2], &mut rows)   // Ok(1): cube 0 (00) with the word 1; 11 matches no wanted code
#![tactic(auto, using(cube::proofs::Calls::refusals))]

ghost use Rattle.std.specs.Prelude.{◌≡◌, ℕ, ◌++◌, ◌<◌, ◌≤◌, ◌^◌, length, get_or, map, drop};
ghost use Rattle.chart.specs.Rows.{chart_row, Charted};

pub use chart_arrays::ChartRow;
use cube::Refusal;
use spelling::MOST_CUBES;
use tables::Table;

// Puts the chart's rows of some cubes into the first of the lent rows. A place is an index: behind a `zip` of rows and cubes nothing is known of what was
// written.
#[tactic(auto, using(chart_arrays::proofs::Written::map_written))]
fn fill(table: Table, cubes: &[u16], rows: &mut [ChartRow])
    requires fits { length cubes.now ≤ length rows.old }
    requires cubes { (i : ℕ) → i < length cubes.now → get_or cubes.now i 0 < 3 ^ table.width }
    ensures { rows.new ≡ map (chart_row table.entry.width table.entry.cells.now) cubes.now ++ drop (length cubes.now) rows.old }
{
    for (i, q) in cubes.iter().enumerate() {
        rows[i] = chart_arrays::row(table, *q);
    }
}

// Writes the chart of a table into the first of the lent rows, one per prime that matches a wanted code, and answers how many there are.
pub fn chart(n: usize, table: &[u8], rows: &mut [ChartRow]) -> Result<usize, Refusal>
    ensures { Charted n table.now rows.old rows.new result }
{
    let table = Table::with_places(n, table, rows.len())?;
    let mut cubes = [0u16; MOST_CUBES];
    let count = primes::list_serving_primes(table, &mut cubes);
    fill(table, &cubes[..count], rows);
    Ok(count)
}

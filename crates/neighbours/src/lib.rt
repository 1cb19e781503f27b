// Essentials from the neighbours: of each wanted code the bits whose flipping gives a barred code are kept, and the cube of those
// bits, the vicinity of the code, is listed if it matches no barred code. There is no chart, no list of primes and no array that
// grows with the width: beside the lent places the call needs a few words.
//
//     let mut places = [0u16; 9];
//     neighbours::essentials_by_neighbours(2, &[1, 0, 0, 2], &mut places)     // Ok(1): cube 0 (00); both neighbours of 0 are barred
#![tactic(auto, using(cube::proofs::Calls::refusals))]

mod vicinities;

ghost use Rattle.std.specs.Prelude.{◌≡◌, true, ◌+◌, ◌<◌, ◌≤◌, ◌^◌, length, take};
ghost use Rattle.numbers.specs.Lent.{Puts};
ghost use Rattle.cube.specs.Words.{on_set, essentials_of};
ghost use Rattle.cube.specs.Calls.{Listed};
ghost use Rattle.tables.specs.Listing.{primes_refuses};
ghost use Rattle.neighbours.specs.Steps.{found_below, inserted_at, FoundSoFar};

use cube::Refusal;
use tables::Table;

// Puts q before place `at` of the first places, each of those behind it one place on, and returns how many there are then. The places are the caller's, as
// C lends them, here and in `add_vicinity`, with the count beside them.
fn insert_at(q: u16, at: usize, list: &mut [u16], count: usize) -> usize
    requires { (at ≤ count) × (count < length list.old) }
    ensures { Puts (inserted_at at q (take count list.old)) list.old 0 list.new result }
{
    list.copy_within(at..count, at + 1);
    list[at] = q;
    count + 1
}

// Lists the vicinity of a wanted code, unless it is listed already or matches a barred code, and returns how many are listed.
fn add_vicinity(table: Table, c: usize, out: &mut [u16], count: usize) -> usize
    requires found { FoundSoFar table.width table.cells.now out.old c count }
    requires code { c < length table.cells.now }
    requires wanted { on_set table.cells.now c ≡ true }
    ensures { Puts (found_below table.entry.width table.entry.cells.now (c + 1)) out.old 0 out.new result }
{
    let kept = vicinities::kept_bits(table, c);
    let cube = kept.cube as u16;
    match out[..count].binary_search(&cube) {
        Ok(_) => count,
        Err(_) if vicinities::matches_barred(table, c, kept.bits) => count,
        Err(at) => insert_at(cube, at, out, count),
    }
}

// Lists the essential primes of a table, ascending, and returns their number.
fn list_essentials(table: Table, out: &mut [u16]) -> usize
    requires { 3 ^ table.width ≤ length out.old }
    ensures { Puts (essentials_of table.entry.width table.entry.cells.now) out.old 0 out.new result }
{
    let mut count = 0;
    for (c, cell) in table.cells.iter().enumerate() {
        if *cell == 1 {
            count = add_vicinity(table, c, out, count);
        }
    }
    count
}

// The essential primes of a table into the first places, ascending by cube number: how many there are, or why it is refused.
pub fn essentials_by_neighbours(n: usize, table: &[u8], out: &mut [u16]) -> Result<usize, Refusal>
    ensures { Listed (primes_refuses n table.now (length out.old)) (essentials_of n table.now)
        out.old out.new result }
{
    let table = Table::with_places(n, table, out.len())?;
    Ok(list_essentials(table, out))
}

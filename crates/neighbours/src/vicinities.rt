// The vicinity of a code: the bits whose flipping gives a barred code, and the cube of those bits.
ghost use Rattle.std.specs.Prelude.{◌≡◌, ◌<◌, ◌^◌, length};
ghost use Rattle.numbers.specs.Below.{some};
ghost use Rattle.cube.specs.Calls.{widest};
ghost use Rattle.neighbours.specs.Steps.{WithBit, KeptOf, barred_match};

use tables::Table;

// The bits that are kept, a one at each, and the number of the cube that tests them.
#[derive(Clone, Copy)]
pub struct Kept {
    pub bits: usize,
    pub cube: usize,
}

// What is kept so far, with bit k: it is kept if flipping it gives a barred code.
fn with_bit(table: Table, c: usize, k: usize, kept: Kept) -> Kept
    requires bit { k < table.width }
    requires code { c < length table.cells.now }
    requires small { (kept.bits < 2 ^ widest) × (kept.cube < 3 ^ widest) }
    ensures { WithBit table.entry.cells.now c k kept result }
{
    let weight = spelling::codes(k);
    if table.cells[c ^ weight] != 0 {
        return Kept {
            bits: 2 * kept.bits,
            cube: 3 * kept.cube + 2,
        };
    }
    Kept {
        bits: 2 * kept.bits + 1,
        cube: 3 * kept.cube + c / weight % 2,
    }
}

// What code c keeps, from the first bit on.
pub fn kept_bits(table: Table, c: usize) -> Kept
    requires { c < length table.cells.now }
    ensures { KeptOf table.entry.width table.entry.cells.now c result }
{
    let mut kept = Kept { bits: 0, cube: 0 };
    for k in (0..table.width).rev() {
        kept = with_bit(table, c, k, kept);
    }
    kept
}

// Whether some barred code agrees with code c in these bits.
pub fn matches_barred(table: Table, c: usize, bits: usize) -> bool
    ensures { result ≡ some (length table.entry.cells.now) (barred_match table.entry.cells.now c bits) }
{
    table
        .cells
        .iter()
        .enumerate()
        .any(|(x, cell)| *cell == 0 && x & bits == c & bits)
}

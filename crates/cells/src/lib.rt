// Cells: the codes that a cube matches, ascending, found by splitting at the first untested digit.
//
//     let mut codes = [0u8; 16];
//     cells::cells(4, 53, &mut codes)     // digits 1 2 2 2: Ok(8), the codes 8 to 15
#![tactic(auto, using(cube::proofs::Calls::refusals))]

ghost use Rattle.std.specs.Prelude.{◌+◌, ◌≤◌, length};
ghost use Rattle.numbers.specs.Lent.{Puts};
ghost use Rattle.cube.specs.Words.{codes_of};
ghost use Rattle.cube.specs.Calls.{Listed};
ghost use Rattle.cells.specs.Cells.{cells_refuses};
ghost use Rattle.cells.specs.Steps.{FirstUntested, Splits};

use cube::Refusal;
use spelling::Cube;

// The place of the first untested digit, x1's first.
fn first_untested(cube: Cube) -> Option<usize>
    ensures { FirstUntested cube.width cube.number result }
{
    (0..cube.width)
        .rev()
        .find(|&k| spelling::digit(cube.number, k) == 2)
}

// A cube with no untested digit is one code; any other is two halves, the 0 half first.
#[derive(Clone, Copy)]
pub enum Split {
    Code(u8),
    Halves(Cube, Cube),
}

// The code of a cube, or its two halves at the first untested digit.
pub fn split_at_first(cube: Cube) -> Split
    ensures { Splits cube.width cube.number result }
{
    match first_untested(cube) {
        None => Split::Code(cube.row().value),
        Some(k) => Split::Halves(cube.with_digit(k, 0), cube.with_digit(k, 1)),
    }
}

// Writes the codes of a cube from place `at` on and returns the place after them. The buffer is the caller's, as C lends it, with the place beside it.
fn write_codes(cube: Cube, out: &mut [u8], at: usize) -> usize
    requires { at + length (codes_of cube.width cube.number) ≤ length out.old }
    ensures { Puts (codes_of cube.width cube.number) out.old at out.new result }
{
    match split_at_first(cube) {
        Split::Code(code) => {
            out[at] = code;
            at + 1
        }
        Split::Halves(low, high) => {
            let middle = write_codes(low, out, at);
            write_codes(high, out, middle)
        }
    }
}

// Writes the codes that a cube matches into the first bytes, ascending. Answers how many there are, or why it refuses.
pub fn cells(n: usize, q: usize, out: &mut [u8]) -> Result<usize, Refusal>
    ensures { Listed (cells_refuses n q (length out.old)) (codes_of n q) out.old out.new result }
{
    let cube = Cube::new(n, q)?;
    if out.len() < spelling::codes(n) {
        return Err(Refusal::ShortOutput);
    }
    Ok(write_codes(cube, out, 0))
}

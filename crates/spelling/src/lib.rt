// Spell: the row of a cube, from the table of 729 rows (rows.rt). A cube as a type and the powers of two and of three are here too; all other code takes
// them from here, the powers for bits, for cube digits and for the number of codes and cubes of a width.
//
//     spelling::spell(4, 53)      // digits 1 2 2 2: value 8, care 8
#![tactic(auto, using(cube::proofs::Calls::refusals, cube::proofs::Calls::cubes_most))]

mod rows;

ghost use Rattle.std.specs.Prelude.{◌≡◌, [], ◌∷◌, ◌+◌, ◌*◌, ◌<◌, ◌≤◌, ◌^◌, IfOk, OnOk};
ghost use Rattle.cube.specs.Words.{digit as digitAt, row_of};
ghost use Rattle.cube.specs.Calls.{widest, bad_width, when, first_of, refusal_of, answer_of};
ghost use Rattle.spelling.specs.Spell.{spell_refuses, spell_of};

use cube::{Refusal, Row};

// The widest mark.
const WIDEST: usize = 6;

// The codes, the pairs of codes and the cubes of the widest mark: the lengths of arrays that must suffice for every width. A shortest list has at
// most a row for each pair of codes.
pub const MOST_CODES: usize = 1 << WIDEST;

pub const MOST_CODE_PAIRS: usize = MOST_CODES / 2;

pub const MOST_CUBES: usize = 729;

// A table: with `pow` in its place a call of Primes at width 6 takes more than twice as long (17 microseconds for 7.5).
static POWERS_OF_THREE: [usize; WIDEST + 1] = [1, 3, 9, 27, 81, 243, 729];

// Refuses a width outside 1 to 6.
pub fn check_width(n: usize) -> Result<(), Refusal>
    ensures refusal { refusal_of result ≡ first_of (when (bad_width n) 1 ∷ []) }
    ensures width { OnOk result ((1 ≤ n) × (n ≤ widest)) }
{
    if (1..=WIDEST).contains(&n) {
        Ok(())
    } else {
        Err(Refusal::Width)
    }
}

// Here and at `cubes` and `digit` a number is asked to be at most the widest width. There is no type for that: it is the place of a bit or of a digit as well
// as a width, and the calls get the width as a number.

// The number of codes of n bits, and the weight of bit n of a code, counted from the last.
pub fn codes(n: usize) -> usize
    requires { n ≤ widest }
    ensures { result ≡ 2 ^ n }
{
    1 << n
}

// The number of cubes of n digits, and the weight of digit n of a cube, counted from the last.
pub fn cubes(n: usize) -> usize
    requires { n ≤ widest }
    ensures { result ≡ 3 ^ n }
{
    POWERS_OF_THREE[n]
}

// Digit k of a cube, counted from the last: 0, 1, or 2 where it is untested. It is a number, since numbers of cubes are computed with it.
pub fn digit(q: usize, k: usize) -> usize
    requires { k ≤ widest }
    ensures { result ≡ digitAt k q }
{
    q / cubes(k) % 3
}

// A cube of `width` digits, by its number.
#[derive(Clone, Copy)]
pub struct Cube {
    pub width: usize,
    pub number: usize,
    pub ghost narrow: { width ≤ widest },
    pub ghost numbered: { number < 3 ^ width },
}

impl Cube {
    // The cube of this width with this number: refused for a bad width, then for a number that is not below 3^width.
    pub fn new(width: usize, number: usize) -> Result<Cube, Refusal>
        ensures refusal { refusal_of result ≡ spell_refuses width number }
        ensures cube { IfOk result (λ c. (c.width ≡ width) × (c.number ≡ number)) }
    {
        check_width(width)?;
        if number < cubes(width) {
            Ok(Cube { width, number })
        } else {
            Err(Refusal::CubeNumber)
        }
    }

    // The cube with digit k made d.
    pub fn with_digit(self, k: usize, d: usize) -> Cube
        requires { (k < self.width) × (d ≤ 2) }
        ensures width { result.width ≡ self.width }
        ensures number { result.number + digitAt k self.number * 3 ^ k ≡ self.number + d * 3 ^ k }
    {
        let width = self.width;
        let weight = cubes(k);
        let number = self.number - digit(self.number, k) * weight + d * weight;
        Cube { width, number }
    }

    // Its row: with zeros before it a cube has the same value, and of the care the low bits count, as many as it has digits.
    pub fn row(self) -> Row
        ensures { result ≡ row_of self.width self.number }
    {
        let row = rows::of_six(self.number);
        Row {
            value: row.value,
            care: (usize::from(row.care) % codes(self.width)) as u8,
        }
    }
}

// The row that spells a cube, or why there is none.
pub fn spell(n: usize, q: usize) -> Result<Row, Refusal>
    ensures { answer_of result ≡ spell_of n q }
{
    Ok(Cube::new(n, q)?.row())
}

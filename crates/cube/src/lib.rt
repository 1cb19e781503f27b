// The words of document 01 are in specs/, their laws in proofs/. The code is what every layer shares: a row, and why a call refuses.
//
//     match spelling::spell(4, 53) {
//         Ok(row) => ..,                          // digits 1 2 2 2: value 8, care 8
//         Err(refusal) => refusal.number(),
//     }
#![tactic(auto)]

ghost use Rattle.std.specs.Prelude.{◌≡◌};

// A row: the value that a code has in the bits of the care.
#[derive(Clone, Copy, PartialEq, Eq)]
pub struct Row {
    pub value: u8,
    pub care: u8,
}

// Why a call refuses what it is given, with the numbers in order. It has no `Display`: a number is all that the papers print, and `number` gives it.
#[derive(Clone, Copy, PartialEq, Eq)]
pub enum Refusal {
    // The width is not 1 to 6.
    Width = 1,
    // The table does not have 2^n cells.
    TableLength,
    // A cell is above 2.
    Cell,
    // A lent output is too short.
    ShortOutput,
    // Two arrays differ in length.
    UnequalLengths,
    // There are more than 255 rows.
    TooManyRows,
    // A row is not formed.
    UnformedRow,
    // The cube number is 3^n or more.
    CubeNumber,
    // The text is not in form.
    Text,
    // The file does not have the length that it should have.
    FileLength,
}

impl Refusal {
    ghost use Rattle.cube.specs.Calls.{refusal_number};

    // The number of the refusal.
    pub fn number(self) -> u8
        ensures { result ≡ refusal_number self }
    {
        self as u8
    }
}

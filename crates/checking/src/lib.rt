// Check: whether a list of rows matches every wanted code of a table and no barred one, and if not, the lowest wrong code. It goes through the
// rows once and gathers the codes that they match, and then through the codes from 0 up to the first wrong one.
//
//     checking::check(2, &[0, 0, 1, 1], &[2], &[2])   // Ok(Right): the row 1- matches 2 and 3
//     checking::check(2, &[0, 0, 1, 1], &[0], &[0])   // Ok(Stray(0)): the row -- matches 0, which is barred
//     checking::check(2, &[0, 0, 1, 1], &[], &[])     // Ok(Missed(2))
#![tactic(auto, using(cube::proofs::Calls::refusals))]

ghost use Rattle.std.specs.Prelude.{◌≡◌};
ghost use Rattle.cube.specs.Calls.{answer_of};
ghost use Rattle.checking.specs.Check.{check_of};
ghost use Rattle.checking.specs.Steps.{Judges};

use cube::Refusal;
use lists::Rows;
use matrix::columns;
use tables::Table;

// Right, or the lowest wrong code: missed where it is wanted and unmatched, stray where it is barred and matched.
#[derive(Clone, Copy, PartialEq, Eq)]
pub enum Verdict {
    Right,
    Missed(u8),
    Stray(u8),
}

// The lowest wrong code with its name, or right where none is wrong, for a list that matches these codes.
fn lowest_wrong(table: Table, matched: columns::Set) -> Verdict
    ensures { Judges table.entry.width table.entry.cells.now matched result }
{
    for (c, cell) in table.cells.iter().enumerate() {
        match (*cell, matched.contains(c)) {
            (1, false) => return Verdict::Missed(c as u8),
            (0, true) => return Verdict::Stray(c as u8),
            _ => {}
        }
    }
    Verdict::Right
}

// Whether a list is right for a table, and if not, its lowest wrong code; or why the call refuses.
pub fn check(n: usize, table: &[u8], values: &[u8], cares: &[u8]) -> Result<Verdict, Refusal>
    ensures { answer_of result ≡ check_of n table.now values.now cares.now }
{
    let table = Table::new(n, table)?;
    let rows = Rows::new(values, cares)?;
    let matched = gathering::gather(n, rows)?;
    Ok(lowest_wrong(table, matched))
}

// The call that builds both lists, the ordinary one and the keep-out one, and writes the better: fewer rows, then fewer tested bits, then the ordinary one.
//
//     let mut values = [0u8; 2];
//     let mut cares = [0u8; 2];
//     better::better(2, &[0, 1, 1, 1], &mut values, &mut cares)   // Ok: the keep-out list, 1 row, 2 bits: 00; the ordinary list has 2 rows
#![tactic(auto, using(cube::proofs::Calls::refusals))]

ghost use Rattle.std.specs.Prelude.{◌≡◌, take};
ghost use Rattle.cube.specs.Calls.{written};
ghost use Rattle.better.specs.Better.{Builds};
ghost use Rattle.better.specs.Steps.{Fits};

use cube::Refusal;
use plan::Totals;
use spelling::MOST_CODE_PAIRS;

// Which list is written, with its totals.
#[derive(Clone, Copy, PartialEq, Eq)]
pub enum Built {
    Ordinary(Totals),
    KeepOut(Totals),
}

// A list in two arrays of its own, which have places for the widest one, with its totals. They are arrays since Plan writes into arrays, as C lends them.
#[derive(Clone, Copy)]
struct Draft {
    totals: Totals,
    values: [u8; MOST_CODE_PAIRS],
    cares: [u8; MOST_CODE_PAIRS],
}

impl Draft {
    // No row.
    fn new() -> Draft {
        Draft {
            totals: Totals { rows: 0, bits: 0 },
            values: [0; MOST_CODE_PAIRS],
            cares: [0; MOST_CODE_PAIRS],
        }
    }

    // Copies the list into the first places of two other arrays.
    fn write(&self, values: &mut [u8], cares: &mut [u8])
        requires { Fits self.now values.old cares.old }
        ensures values_after { values.new ≡ written 0 (take self.now.totals.rows self.now.values) values.old }
        ensures cares_after { cares.new ≡ written 0 (take self.now.totals.rows self.now.cares) cares.old }
    {
        let rows = self.totals.rows;
        values[..rows].copy_from_slice(&self.values[..rows]);
        cares[..rows].copy_from_slice(&self.cares[..rows]);
    }
}

// Builds both shortest lists for a table, and writes the better into the first places of both arrays, ascending by cube number. Answers which it is, with
// its totals.
// The two drafts are filled by the same three steps, not by a function: it would take the call as a closure, with what the call promises beside it.
pub fn better(n: usize, table: &[u8], values: &mut [u8], cares: &mut [u8]) -> Result<Built, Refusal>
    ensures { Builds n table.now values.old cares.old values.new cares.new result }
{
    plan::accept(n, table, values.len(), cares.len())?;
    let mut list = Draft::new();
    list.totals = plan::plan(n, table, &mut list.values, &mut list.cares)?;
    let mut excluding = Draft::new();
    excluding.totals = keep_out::keep_out(n, table, &mut excluding.values, &mut excluding.cares)?;
    if excluding.totals < list.totals {
        excluding.write(values, cares);
        return Ok(Built::KeepOut(excluding.totals));
    }
    list.write(values, cares);
    Ok(Built::Ordinary(list.totals))
}

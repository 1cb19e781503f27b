// The program `rows`, which plans the table of a text and shows the list by its lines and its two counts.
//
//     reply::whole(b"2\n0111\n")     // 1-, -1, rows 2 bits 2
#![tactic(auto)]

ghost use Rattle.plan.specs.Theorems.{MayWrite};
ghost use Rattle.text.specs.Output.{rows_text};
ghost use Rattle.text.specs.Steps.{PrintsState};
ghost use Rattle.reply.specs.Reply.{RowsFor};

use arrayvec::ArrayString;
use cube::Refusal;
use lists::Rows;
use spelling::MOST_CODE_PAIRS;
use text::input::{Reader, Text};
use text::output::{self, MOST_OUTPUT};
use text::program::{self, Program};

// The program.
pub struct RowsReply;

impl Program<MOST_OUTPUT> for RowsReply {
    ghost use Rattle.std.proofs.Common.{lit≤};
    ghost use Rattle.plan.specs.Theorems.{MayWrite};
    ghost use Rattle.text.specs.Output.{rows_text};

    ghost shown = { rows_text };

    ghost May = { MayWrite };

    ghost room = { lit≤ tt };

    // Two arrays, as C lends them to Plan. Not one function with that of `sums_reply`: it would take the call as a closure, with what the call promises beside it,
    // for these lines.
    fn show(text: Text) -> Result<ArrayString<MOST_OUTPUT>, Refusal> {
        let mut values = [0u8; MOST_CODE_PAIRS];
        let mut cares = [0u8; MOST_CODE_PAIRS];
        let totals = plan::plan(text.width, text.cells, &mut values, &mut cares)?;
        let rows = Rows {
            values: &values[..totals.rows],
            cares: &cares[..totals.rows],
        };
        Ok(output::list(text.width, rows, totals.bits))
    }
}

// What is printed at the end of the input, for what was read.
pub fn reply(reader: &Reader) -> ArrayString<MOST_OUTPUT>
    ensures { PrintsState rows_text MayWrite reader.now result.bytes }
{
    program::reply::<RowsReply, MOST_OUTPUT>(reader)
}

// What is printed for a whole input. Not one function with that of `sums_reply`: each is the statement of its program, by `RowsFor` and by `SumsFor`.
pub fn whole(input: &[u8]) -> ArrayString<MOST_OUTPUT>
    ensures { RowsFor input.now result.bytes }
{
    program::whole::<RowsReply, MOST_OUTPUT>(input)
}

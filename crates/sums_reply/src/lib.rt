// The program `sums`, which builds a keep-out list for the table of a text and shows it as a product of sums.
//
//     sums_reply::whole(b"2\n0111\n")     // (x1+x2)
#![tactic(auto)]

ghost use Rattle.keep_out.specs.KeepOut.{MayKeepOut};
ghost use Rattle.text.specs.Steps.{PrintsState};
ghost use Rattle.product.specs.Product.{excluding_line};
ghost use Rattle.sums_reply.specs.Sums.{SumsFor};

use arrayvec::ArrayString;
use cube::Refusal;
use lists::Rows;
use product::MOST_LINE;
use spelling::MOST_CODE_PAIRS;
use text::input::{Reader, Text};
use text::program::{self, Program};

// The program.
pub struct SumsReply;

impl Program<MOST_LINE> for SumsReply {
    ghost use Rattle.std.proofs.Common.{lit≤};
    ghost use Rattle.keep_out.specs.KeepOut.{MayKeepOut};
    ghost use Rattle.product.specs.Product.{excluding_line};

    ghost shown = { excluding_line };

    ghost May = { MayKeepOut };

    ghost room = { lit≤ tt };

    // Two arrays, as C lends them to the call. Why not one function with that of `reply`: see there.
    fn show(text: Text) -> Result<ArrayString<MOST_LINE>, Refusal> {
        let mut values = [0u8; MOST_CODE_PAIRS];
        let mut cares = [0u8; MOST_CODE_PAIRS];
        let totals = keep_out::keep_out(text.width, text.cells, &mut values, &mut cares)?;
        let rows = Rows {
            values: &values[..totals.rows],
            cares: &cares[..totals.rows],
        };
        Ok(product::line(text.width, rows))
    }
}

// What is printed at the end of the input, for what was read.
pub fn reply(reader: &Reader) -> ArrayString<MOST_LINE>
    ensures { PrintsState excluding_line MayKeepOut reader.now result.bytes }
{
    program::reply::<SumsReply, MOST_LINE>(reader)
}

// What is printed for a whole input. Why not one function with that of `reply`: see there.
pub fn whole(input: &[u8]) -> ArrayString<MOST_LINE>
    ensures { SumsFor input.now result.bytes }
{
    program::whole::<SumsReply, MOST_LINE>(input)
}

// A program on a table: it reads a text, and prints the list that it finds for the table, or the refusal.
ghost use Rattle.std.specs.Prelude.{MatchResult};
ghost use Rattle.cube.specs.Calls.{refusal_number};
ghost use Rattle.text.specs.Output.{refused, ProgramOutput};
ghost use Rattle.text.specs.Steps.{PrintsState};

use crate::input::{Reader, Text};
use crate::output;
use arrayvec::ArrayString;
use cube::Refusal;

// A program whose output has at most N bytes.
pub trait Program<const N: usize> {
    ghost use Rattle.std.specs.Prelude.{ℕ, List, IfOk, ◌≡◌, ◌≤◌};
    ghost use Rattle.cube.specs.Words.{Cover};
    ghost use Rattle.cube.specs.Calls.{first_of, table_conditions, refusal_of};
    ghost use Rattle.text.specs.Steps.{ShowsTable, most_refusal};

    // The way in which it shows a list.
    ghost shown: { ℕ → Cover → List ℕ };

    // The lists that it may show for a table.
    ghost May: { ℕ → List ℕ → Cover → Type 0 };

    // What is shown for the table of a text, or why it is refused.
    fn show(text: Text) -> Result<ArrayString<N>, Refusal>
        ensures refusal { refusal_of result ≡ first_of (table_conditions text.entry.width text.entry.cells.now) }
        ensures text { IfOk result (λ out. ShowsTable shown May text.entry.width text.entry.cells.now out.bytes) };

    ghost room: { most_refusal ≤ N };
}

// What is shown for what was read, or why it is refused.
fn answer<P: Program<N>, const N: usize>(reader: &Reader) -> Result<ArrayString<N>, Refusal>
    ensures { MatchResult result (λ text. PrintsState P.shown P.May reader.now text.bytes) (λ e. PrintsState P.shown P.May reader.now (refused (refusal_number e))) }
{
    P::show(reader.text()?)
}

// What is printed at the end of the input, for what was read.
pub fn reply<P: Program<N>, const N: usize>(reader: &Reader) -> ArrayString<N>
    ensures { PrintsState P.shown P.May reader.now result.bytes }
{
    match answer::<P, N>(reader) {
        Ok(text) => text,
        Err(refusal) => output::refusal(refusal.number()),
    }
}

// What is printed for a whole input.
#[tactic(auto, using(crate::proofs::Replies::input_said))]
pub fn whole<P: Program<N>, const N: usize>(input: &[u8]) -> ArrayString<N>
    ensures { ProgramOutput P.shown P.May input.now result.bytes }
{
    let mut reader = Reader::new();
    reader.feed(input);
    reply::<P, N>(&reader)
}

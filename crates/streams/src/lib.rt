// A program's input, read to its end and fed to the grammar; and its output. A program of `text` is run by
//
//     let text = streams::answer::<Rows, _, MOST_OUTPUT>(&mut rt.stdin());
//     streams::send::<Rows, _, _, MOST_OUTPUT>(&mut rt.stdout(), &mut rt.stderr(), text.as_bytes(), b"writing failed\n");
#![tactic(auto)]

ghost use Rattle.std.specs.Io.{ReadsAtMost};
ghost use Rattle.text.specs.Output.{ProgramOutput};
ghost use Rattle.streams.specs.Streams.{WholeOutput};
ghost use Rattle.streams.specs.Steps.{Turned, ReadAll};

use arrayvec::ArrayString;
use std::io::{self, Read, Write};
use std::ops::ControlFlow;
use text::input::Reader;
use text::program::{self, Program};

// How many bytes a read may bring.
const PIECE: usize = 65536;

// Takes what a read that answered `got` put at the start of the piece; where it brought nothing, the input ends. A read that fails does not pass for the
// end of the input: the text is then not in form.
#[tactic(auto, unfolding(text::specs::Steps::fed))]
fn take_turn(reader: &mut Reader, piece: &[u8], got: io::Result<usize>) -> ControlFlow<()>
    requires { ReadsAtMost got piece.now }
    ensures { Turned reader.old got piece.now result reader.new }
{
    match got {
        Err(_) => {
            reader.fail();
            ControlFlow::Break(())
        }
        Ok(0) => ControlFlow::Break(()),
        Ok(n) => {
            reader.feed(&piece[..n]);
            ControlFlow::Continue(())
        }
    }
}

// Reads to the end. The count of turns makes the loop end; it never runs out.
#[tactic(auto, using(crate::proofs::Pieces::read_none, crate::proofs::Pieces::read_wrong, crate::proofs::Pieces::read_more))]
pub fn read_all<R: Read>(input: &mut R) -> Reader
    ensures { ReadAll result }
{
    let mut piece = [0u8; PIECE];
    let mut reader = Reader::new();
    for _ in 0..u64::MAX {
        let got = input.read(&mut piece);
        if take_turn(&mut reader, &piece, got).is_break() {
            return reader;
        }
    }
    reader.fail();
    reader
}

// What a program prints for its input.
#[tactic(auto, using(text::proofs::Replies::input_said))]
pub fn answer<P: Program<N>, R: Read, const N: usize>(input: &mut R) -> ArrayString<N>
    ensures { WholeOutput (ProgramOutput P.shown P.May) result.bytes }
{
    program::reply::<P, N>(&read_all(input))
}

// Hands a text to the output. Where a write fails, writes the complaint to the other.
pub fn hand_over<O: Write, E: Write>(output: &mut O, other: &mut E, text: &[u8], complaint: &[u8]) {
    if output.write_all(text).is_err() {
        let _ = other.write_all(complaint);
    }
}

// Hands the whole output of a program to the first writer, standard output; nothing else is handed there. Where a write fails, says so on the other, standard
// error.
pub fn send<P: Program<N>, O: Write, E: Write, const N: usize>(
    output: &mut O,
    other: &mut E,
    text: &[u8],
    complaint: &[u8],
)
    requires { WholeOutput (ProgramOutput P.shown P.May) text.now }
{
    hand_over(output, other, text, complaint);
}

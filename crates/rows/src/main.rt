// The program `rows`: a table on standard input, its shortest list on standard output. Reading and writing are `streams`', the
// grammar and the lines are `text`'s, and what is printed is `reply`'s.
#![tactic(auto)]

ghost use Rattle.streams.specs.Streams.{WholeOutput};
ghost use Rattle.reply.specs.Reply.{RowsFor};

use arrayvec::ArrayString;
use reply::RowsReply;
use std::io::{Read, Write};
use text::output::MOST_OUTPUT;

// What is printed for the input. Here and at `send` the statement of this program stands, whatever type `streams` is handed.
fn answer<R: Read>(input: &mut R) -> ArrayString<MOST_OUTPUT>
    ensures { WholeOutput RowsFor result.bytes }
{
    streams::answer::<RowsReply, _, MOST_OUTPUT>(input)
}

// Hands the whole output to the first writer, standard output; nothing else is handed there. Where a write fails, says so on the other, standard error.
fn send<O: Write, E: Write>(output: &mut O, other: &mut E, text: &[u8])
    requires { WholeOutput RowsFor text.now }
{
    streams::send::<RowsReply, _, _, MOST_OUTPUT>(output, other, text, b"rows: writing failed\n");
}

// Not one function with the main of `sums`: each asks, for its own program, that the whole output is handed on. A function for both would ask nothing of its
// caller.
fn main(rt: HostRuntime) {
    let text = answer(&mut rt.stdin());
    send(&mut rt.stdout(), &mut rt.stderr(), text.as_bytes());
}

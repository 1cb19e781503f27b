// The program `sums`: a table on standard input, the product of sums of its shortest keep-out list on standard output. Reading and writing are `streams`',
// the grammar is `text`'s, the line is `product`'s, and what is printed is `sums_reply`'s.
#![tactic(auto)]

ghost use Rattle.streams.specs.Streams.{WholeOutput};
ghost use Rattle.sums_reply.specs.Sums.{SumsFor};

use arrayvec::ArrayString;
use product::MOST_LINE;
use std::io::{Read, Write};
use sums_reply::SumsReply;

// What is printed for the input. Here and at `send` the statement of this program stands, whatever type `streams` is handed.
fn answer<R: Read>(input: &mut R) -> ArrayString<MOST_LINE>
    ensures { WholeOutput SumsFor result.bytes }
{
    streams::answer::<SumsReply, _, MOST_LINE>(input)
}

// Hands the whole output to the first writer, standard output; nothing else is handed there. Where a write fails, says so on the other, standard error.
fn send<O: Write, E: Write>(output: &mut O, other: &mut E, text: &[u8])
    requires { WholeOutput SumsFor text.now }
{
    streams::send::<SumsReply, _, _, MOST_LINE>(output, other, text, b"sums: writing failed\n");
}

// Not one function with the main of `rows`: each asks, for its own program, that the whole output is handed on. A function for both would ask nothing of its
// caller.
fn main(rt: HostRuntime) {
    let text = answer(&mut rt.stdin());
    send(&mut rt.stdout(), &mut rt.stderr(), text.as_bytes());
}

// Primes, Essentials and Plan on one table. A term is printed as the papers have it, x1 first, `-` for untested.
ghost use Rattle.std.specs.Prelude.{◌≤◌, IfOk, length};
ghost use Rattle.cube.specs.Calls.{widest};

use cube::Refusal;
use spelling::{MOST_CODE_PAIRS, MOST_CUBES};
use std::fmt;
use text::input::{Reader, Text};

// A digit of a cube.
#[derive(Clone, Copy)]
struct Digit(usize);

impl fmt::Display for Digit {
    fn fmt<W: fmt::Write>(&self, f: &mut fmt::Formatter<W>) -> fmt::Result {
        f.write_char(match self.0 {
            0 => '0',
            1 => '1',
            _ => '-',
        })
    }
}

// A cube of this many digits. It is no `spelling::Cube`: that what a call has listed is below 3^width is not known here without a proof of its own.
#[derive(Clone, Copy)]
struct Term {
    width: usize,
    cube: usize,
    ghost narrow: { width ≤ widest },
}

// A term.
fn report_term(rt: &impl Print, term: Term) {
    let _ = print!(rt; " ");
    for k in (0..term.width).rev() {
        let digit = Digit(spelling::digit(term.cube, k));
        let _ = print!(rt; "{digit}");
    }
}

// A refusal, by its number.
fn report_refusal(rt: &impl Print, refusal: Refusal) {
    let _ = print!(rt; "refused ");
    let _ = print!(rt; "{}", refusal.number());
    let _ = println!(rt);
}

// The terms that a call has listed, or its refusal. The answer stands beside the places, as the calls give them.
fn report(
    rt: &impl Print,
    title: &str,
    width: usize,
    answer: Result<usize, Refusal>,
    places: &[u16],
)
    requires { IfOk answer (λ count. (width ≤ widest) × (count ≤ length places.now)) }
{
    let _ = print!(rt; "  {title} ");
    match answer {
        Ok(count) => {
            let _ = print!(rt; "{count}");
            let _ = print!(rt; ":");
            for cube in &places[..count] {
                let term = Term {
                    width,
                    cube: usize::from(*cube),
                };
                report_term(rt, term);
            }
            let _ = println!(rt);
        }
        Err(refusal) => report_refusal(rt, refusal),
    }
}

// The counts of a shortest list of a table.
fn report_plan(rt: &impl Print, width: usize, table: &[u8]) {
    let mut values = [0u8; MOST_CODE_PAIRS];
    let mut cares = [0u8; MOST_CODE_PAIRS];
    let _ = print!(rt; "  plan ");
    match plan::plan(width, table, &mut values, &mut cares) {
        Ok(totals) => {
            let _ = print!(rt; "rows ");
            let _ = print!(rt; "{}", totals.rows);
            let _ = print!(rt; " bits ");
            let _ = print!(rt; "{}", totals.bits);
            let _ = println!(rt);
        }
        Err(refusal) => report_refusal(rt, refusal),
    }
}

// What the calls answer for a table.
fn report_table(rt: &impl Print, width: usize, table: &[u8]) {
    let mut places = [0u16; MOST_CUBES];
    let primes = primes::primes(width, table, &mut places);
    report(rt, "primes", width, primes, &places);
    let essentials = essentials::essentials(width, table, &mut places);
    report(rt, "essentials", width, essentials, &places);
    report_plan(rt, width, table);
}

// What the calls answer for the table of a text. Each piece is a write of its own, and one that fails does not keep back the next.
pub fn example(rt: &impl Print, name: &str, text: &str) {
    let _ = print!(rt; "{name}");
    let _ = println!(rt);
    let mut reader = Reader::new();
    reader.feed(text.as_bytes());
    match reader.text() {
        Ok(Text { width, cells }) => report_table(rt, width, cells),
        Err(refusal) => {
            let _ = print!(rt; "  ");
            report_refusal(rt, refusal);
        }
    }
}

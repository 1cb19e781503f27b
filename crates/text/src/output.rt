// The printed lines. Each function writes behind what its text has already. Each pushes its parts, and there is no `Display`: `write!` answers a Result that each
// contract would have to rule out, and the contracts give the bytes.
ghost use Rattle.std.specs.Prelude.{◌≡◌, ◌++◌, ◌+◌, ◌<◌, ◌≤◌, eqb, length};
ghost use Rattle.arrayvec.specs.ArrayString.{array_string_len};
ghost use Rattle.cube.specs.Words.{digit_of, rows_of};
ghost use Rattle.cube.specs.Theorems.{bit_of_variable, Variable};
ghost use Rattle.text.specs.Output.{in_decimal, character_of_variable, row_line, list_lines, totals_line, refused, list_text};
ghost use Rattle.text.specs.Steps.{digit_number, most_refusal, Printable};

use arrayvec::ArrayString;
use cube::Row;
use itoa::Buffer;
use lists::{BITS, Rows};
use spelling::MOST_CODE_PAIRS;

// The longest output of `rows`: lines of 7 bytes, one for each pair of codes, and the last line with two numbers of 20 digits.
pub const MOST_OUTPUT: usize = 7 * MOST_CODE_PAIRS + 52;

// A number in decimal.
#[tactic(auto, using(crate::proofs::Decimals::is_decimal))]
pub fn number<const N: usize>(x: usize, out: &mut ArrayString<N>)
    requires { array_string_len out.old + length (in_decimal x) ≤ N }
    ensures { out.new.bytes ≡ out.old.bytes ++ in_decimal x }
{
    out.push_str(Buffer::new().format(x));
}

// The bit of variable xk in a value or a care. Behind its own bits nothing of a byte is left.
#[tactic(auto, using(crate::proofs::Bytes::byte_bit))]
fn bit(n: usize, k: usize, byte: u8) -> bool
    requires { Variable n k }
    ensures { result ≡ eqb (bit_of_variable n k byte) 1 }
{
    usize::from(byte) >> (n - k).min(BITS) & 1 == 1
}

// The bit of variable xk that a row tests, if it tests one.
pub fn tested(n: usize, k: usize, row: Row) -> Option<bool>
    requires { Variable n k }
    ensures { digit_number result ≡ digit_of (bit_of_variable n k row.value) (bit_of_variable n k row.care) }
{
    if !bit(n, k, row.care) {
        return None;
    }
    Some(bit(n, k, row.value))
}

// The character of variable xk in the line of a row.
fn character(n: usize, k: usize, row: Row) -> char
    requires { Variable n k }
    ensures value { result ≡ character_of_variable n row k }
    ensures ascii { result < 128 }
{
    match tested(n, k, row) {
        None => '-',
        Some(false) => '0',
        Some(true) => '1',
    }
}

// The line of a row, x1 first.
fn line<const N: usize>(n: usize, row: Row, out: &mut ArrayString<N>)
    requires { array_string_len out.old + (n + 1) ≤ N }
    ensures { out.new.bytes ≡ out.old.bytes ++ row_line n row }
{
    for k in 1..=n {
        out.push(character(n, k, row));
    }
    out.push('\n');
}

// The lines of a list.
#[tactic(auto, unfolding(crate::specs::Output::list_lines))]
fn lines<const N: usize>(n: usize, rows: Rows, out: &mut ArrayString<N>)
    requires { array_string_len out.old + length (list_lines n (rows_of rows.values.now rows.cares.now)) ≤ N }
    ensures { out.new.bytes ≡ out.old.bytes ++ list_lines n (rows_of rows.entry.values.now rows.entry.cares.now) }
{
    for row in rows {
        line(n, row, out);
    }
}

// The last line.
fn totals<const N: usize>(rows: usize, bits: usize, out: &mut ArrayString<N>)
    requires { array_string_len out.old + length (totals_line rows bits) ≤ N }
    ensures { out.new.bytes ≡ out.old.bytes ++ totals_line rows bits }
{
    out.push_str("rows ");
    number(rows, out);
    out.push_str(" bits ");
    number(bits, out);
    out.push('\n');
}

// What is printed for a list: its lines and its two counts.
#[tactic(auto, using(crate::proofs::Lines::lines_length, crate::proofs::Lines::totals_length, cube::proofs::Lists::rows_length))]
pub fn list(n: usize, rows: Rows, bits: usize) -> ArrayString<MOST_OUTPUT>
    requires { Printable n (length rows.values.now) }
    ensures { result.bytes ≡ list_text n (rows_of rows.entry.values.now rows.entry.cares.now)
        (length rows.entry.values.now) bits }
{
    let mut out = ArrayString::new();
    lines(n, rows, &mut out);
    totals(rows.len(), bits, &mut out);
    out
}

// What is printed for a refusal with number k.
#[tactic(auto, using(crate::proofs::Lines::number_length))]
pub fn refusal<const N: usize>(k: u8) -> ArrayString<N>
    requires { most_refusal ≤ N }
    ensures { result.bytes ≡ refused k }
{
    let mut out = ArrayString::new();
    out.push_str("refused ");
    number(usize::from(k), &mut out);
    out.push('\n');
    out
}

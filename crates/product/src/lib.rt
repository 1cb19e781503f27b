// The product of sums of a list, with a sum for each row: it is 1 exactly on the codes that no row matches. Each function writes behind what its text has
// already.
//
//     product::line::<MOST_LINE>(2, Rows { values: &[0], cares: &[3] })      // for the row 00: (x1+x2) and a line feed
#![tactic(auto)]

ghost use Rattle.std.specs.Prelude.{◌≡◌, ◌++◌, ◌+◌, ◌<◌, ◌≤◌, length};
ghost use Rattle.arrayvec.specs.ArrayString.{array_string_len};
ghost use Rattle.cube.specs.Words.{rows_of};
ghost use Rattle.product.specs.Product.{literal_text, sum_text, row_sum, excluding_text, excluding_line};
ghost use Rattle.product.specs.Steps.{literal_of, last_character};

use arrayvec::ArrayString;
use cube::Row;
use lists::Rows;
use spelling::MOST_CODE_PAIRS;
use text::output;

// Room for any line at the widest width: a sum of 25 characters for each pair of codes, and the line feed.
pub const MOST_LINE: usize = 25 * MOST_CODE_PAIRS + 1;

// The literal of variable xk where its bit is tested: `xk` for a tested 0, `xk'` for a tested 1.
fn literal<const N: usize>(k: usize, one: bool, out: &mut ArrayString<N>)
    requires { array_string_len out.old + length (literal_text (literal_of k one)) ≤ N }
    ensures { out.new.bytes ≡ out.old.bytes ++ literal_text (literal_of k one) }
{
    out.push('x');
    output::number(k, out);
    if one {
        out.push('\'');
    }
}

// The last character of a sum, where this one would be before its next literal: `0` where that is the bracket, since then there is no literal. No flag stands
// for that beside the character, which would say it twice.
fn last(before: char) -> char
    ensures value { result ≡ last_character before }
    ensures ascii { result < 128 }
{
    if before == '(' { '0' } else { ')' }
}

// The sum of a row, x1 first. A bracket is before its first literal, and a plus sign before each further one.
fn sum<const N: usize>(n: usize, row: Row, out: &mut ArrayString<N>)
    requires { array_string_len out.old + length (sum_text (row_sum n row)) ≤ N }
    ensures { out.new.bytes ≡ out.old.bytes ++ sum_text (row_sum n row) }
{
    let mut before = '(';
    for k in 1..=n {
        if let Some(one) = output::tested(n, k, row) {
            out.push(before);
            literal(k, one, out);
            before = '+';
        }
    }
    out.push(last(before));
}

// The sums of a list; 1 where there is no row.
#[tactic(auto, using(crate::proofs::Writing::no_row, crate::proofs::Writing::some_row), unfolding(crate::specs::Product::sums_text))]
fn sums<const N: usize>(n: usize, rows: Rows, out: &mut ArrayString<N>)
    requires { array_string_len out.old + length (excluding_text n (rows_of rows.values.now rows.cares.now)) ≤ N }
    ensures { out.new.bytes ≡ out.old.bytes ++ excluding_text n (rows_of rows.entry.values.now rows.entry.cares.now) }
{
    if rows.is_empty() {
        out.push_str("1");
        return;
    }
    for row in rows {
        sum(n, row, out);
    }
}

// What is printed for a list: its product of sums on one line.
pub fn line<const N: usize>(n: usize, rows: Rows) -> ArrayString<N>
    requires { length (excluding_line n (rows_of rows.values.now rows.cares.now)) ≤ N }
    ensures { result.bytes ≡ excluding_line n (rows_of rows.entry.values.now rows.entry.cares.now) }
{
    let mut out = ArrayString::new();
    sums(n, rows, &mut out);
    out.push('\n');
    out
}

// Every call for the installer, which is in C: numbers and lent memory go in, one number comes out. Each has a function of its own, since C calls it
// by name. `include/rows.h` declares the functions, and `rt lib` makes the library.
//
//     rows_plan(2, table, 4, values, 2, cares, 2)      // for the table 0 1 1 1: 20002, two rows with two tested bits
//     rows_primes(2, table, 4, cubes, 9)               // for the same table: 2, and the first places hold 5 (12) and 7 (21)
#![tactic(auto, using(crate::proofs::Counts::counts))]

ghost use Rattle.std.specs.Prelude.{◌≡◌, ℕ, pos, IfOk, length};
ghost use Rattle.cube.specs.Words.{codes_of, serving_primes_of, essentials_of};
ghost use Rattle.cube.specs.Calls.{answer_of};
ghost use Rattle.cells.specs.Cells.{cells_refuses};
ghost use Rattle.tables.specs.Listing.{primes_refuses};
ghost use Rattle.chart.specs.Rows.{chart_of};
ghost use Rattle.spelling.specs.Spell.{spell_of};
ghost use Rattle.checking.specs.Check.{check_of};
ghost use Rattle.listfile.specs.File.{one_byte_count, file_of};
ghost use Rattle.listfile.specs.Write.{write_refuses};
ghost use Rattle.installer.specs.Numbers.{number_by, number_of_count, number_of_row, number_of_totals, number_of_built, number_of_verdict, number_of_header, check_number, SpellsForC, ListedForC, PlansForC, PlansKeepOutForC, BuildsForC, ReadsForC};
ghost use Rattle.installer.specs.Steps.{IsFew, AreFew, IsSmall, HasFewRows};

use better::Built;
use chart::ChartRow;
use checking::Verdict;
use cube::{Refusal, Row};
use listfile::Header;
use plan::Totals;

// What a call gives where it does not refuse, as a number for C.
trait ForC {
    // Its number, and which values have one below 2^31.
    ghost number: { Self → ℕ };

    ghost fits: { Self → Type 0 };

    fn number(self) -> i32
        requires { fits self }
        ensures { result ≡ pos (number self) };
}

// A count is its own number.
impl ForC for usize {
    ghost number = { number_of_count };

    ghost fits = { IsFew };

    fn number(self) -> i32 {
        self as i32
    }
}

// A row stands in lent bytes.
impl ForC for Row {
    ghost number = { number_of_row };

    ghost fits = { λ row. Unit {0} };

    fn number(self) -> i32 {
        0
    }
}

// Rows count 10,000.
impl ForC for Totals {
    ghost number = { number_of_totals };

    ghost fits = { AreFew };

    fn number(self) -> i32 {
        (10_000 * self.rows + self.bits) as i32
    }
}

// The keep-out list counts 100,000,000.
impl ForC for Built {
    ghost number = { number_of_built };

    ghost fits = { IsSmall };

    fn number(self) -> i32 {
        match self {
            Built::Ordinary(totals) => totals.number(),
            Built::KeepOut(totals) => 100_000_000 + totals.number(),
        }
    }
}

// Missed codes come after right, and stray codes after these: a code is a byte, so that missed codes take 1 to 256, and stray codes start at 257.
impl ForC for Verdict {
    ghost number = { number_of_verdict };

    ghost fits = { λ v. Unit {0} };

    fn number(self) -> i32 {
        match self {
            Verdict::Right => 0,
            Verdict::Missed(code) => 1 + i32::from(code),
            Verdict::Stray(code) => 257 + i32::from(code),
        }
    }
}

// The width counts 100,000.
impl ForC for Header {
    ghost number = { number_of_header };

    ghost fits = { HasFewRows };

    fn number(self) -> i32 {
        (100_000 * self.width + self.count) as i32
    }
}

// The number of an answer: that of what is given, or minus that of the refusal.
fn number_by<T: ForC>(answer: Result<T, Refusal>) -> i32
    requires { IfOk answer T.fits }
    ensures { result ≡ number_by T.number (answer_of answer) }
{
    match answer {
        Ok(value) => value.number(),
        Err(refusal) => -i32::from(refusal.number()),
    }
}

// Spell for C: 0, with the value and the care of the cube in the two lent bytes, or minus the number of the refusal.
#[unsafe(no_mangle)]
pub extern "C" fn rows_spell(n: usize, cube: usize, value: &mut u8, care: &mut u8) -> i32
    ensures { SpellsForC (spell_of n cube) value.old care.old value.new care.new result }
{
    let spelled = spelling::spell(n, cube);
    if let Ok(row) = spelled {
        *value = row.value;
        *care = row.care;
    }
    number_by(spelled)
}

// Cells for C: how many codes the cube matches, or minus the number of the refusal; the codes go into the first bytes.
#[unsafe(no_mangle)]
pub extern "C" fn rows_cells(n: usize, cube: usize, codes: &mut [u8]) -> i32
    ensures { ListedForC (cells_refuses n cube (length codes.old)) (codes_of n cube) codes.old codes.new result }
{
    number_by(cells::cells(n, cube, codes))
}

// Primes for C: how many primes match a wanted code, or minus the number of the refusal; these primes go into the first places.
#[unsafe(no_mangle)]
pub extern "C" fn rows_primes(n: usize, table: &[u8], cubes: &mut [u16]) -> i32
    ensures { ListedForC (primes_refuses n table.now (length cubes.old)) (serving_primes_of n table.now)
        cubes.old cubes.new result }
{
    number_by(primes::primes(n, table, cubes))
}

// Chart for C: how many chart rows there are, or minus the number of the refusal; they go into the first of the lent rows.
#[unsafe(no_mangle)]
pub extern "C" fn rows_chart(n: usize, table: &[u8], rows: &mut [ChartRow]) -> i32
    ensures { ListedForC (primes_refuses n table.now (length rows.old)) (chart_of n table.now)
        rows.old rows.new result }
{
    number_by(chart::chart(n, table, rows))
}

// Essentials for C: how many essential primes there are, or minus the number of the refusal; they go into the first places.
#[unsafe(no_mangle)]
pub extern "C" fn rows_essentials(n: usize, table: &[u8], cubes: &mut [u16]) -> i32
    ensures { ListedForC (primes_refuses n table.now (length cubes.old)) (essentials_of n table.now)
        cubes.old cubes.new result }
{
    number_by(essentials::essentials(n, table, cubes))
}

// Essentials from the neighbours for C: what rows_essentials answers and writes, for a tool that is too small for charts.
#[unsafe(no_mangle)]
pub extern "C" fn rows_essentials_by_neighbours(n: usize, table: &[u8], cubes: &mut [u16]) -> i32
    ensures { ListedForC (primes_refuses n table.now (length cubes.old)) (essentials_of n table.now)
        cubes.old cubes.new result }
{
    number_by(neighbours::essentials_by_neighbours(n, table, cubes))
}

// Plan for C: 10,000 × rows + tested bits of the list that is written, or minus the number of the refusal.
#[unsafe(no_mangle)]
pub extern "C" fn rows_plan(n: usize, table: &[u8], values: &mut [u8], cares: &mut [u8]) -> i32
    ensures { PlansForC n table.now values.old cares.old values.new cares.new result }
{
    number_by(plan::plan(n, table, values, cares))
}

// The keep-out call for C: 10,000 × rows + tested bits of the list that is written, or minus the number of the refusal.
#[unsafe(no_mangle)]
pub extern "C" fn rows_keep_out(n: usize, table: &[u8], values: &mut [u8], cares: &mut [u8]) -> i32
    ensures { PlansKeepOutForC n table.now values.old cares.old values.new cares.new result }
{
    number_by(keep_out::keep_out(n, table, values, cares))
}

// The call that builds both lists for C: 10,000 × rows + tested bits of the list that is written, and 100,000,000 more if it is the keep-out list, or minus
// the number of the refusal.
#[unsafe(no_mangle)]
pub extern "C" fn rows_better(n: usize, table: &[u8], values: &mut [u8], cares: &mut [u8]) -> i32
    ensures { BuildsForC n table.now values.old cares.old values.new cares.new result }
{
    number_by(better::better(n, table, values, cares))
}

// Check for C: 0 right, 1 + code missed, 257 + code stray, or minus the number of the refusal.
#[unsafe(no_mangle)]
pub extern "C" fn rows_check(n: usize, table: &[u8], values: &[u8], cares: &[u8]) -> i32
    ensures { result ≡ check_number (check_of n table.now values.now cares.now) }
{
    number_by(checking::check(n, table, values, cares))
}

// Write for C: the length of the list file, or minus the number of the refusal; the file goes into the first bytes.
#[unsafe(no_mangle)]
pub extern "C" fn rows_write(n: usize, values: &[u8], cares: &[u8], file: &mut [u8]) -> i32
    ensures { ListedForC (write_refuses one_byte_count n values.now cares.now (length file.old))
        (file_of one_byte_count n values.now cares.now) file.old file.new result }
{
    number_by(listfile::write(n, values, cares, file))
}

// Read for C: 100,000 × width + count of the list file, or minus the number of the refusal; its rows go into the first places.
#[unsafe(no_mangle)]
pub extern "C" fn rows_read(file: &[u8], values: &mut [u8], cares: &mut [u8]) -> i32
    ensures { ReadsForC file.now values.old cares.old values.new cares.new result }
{
    number_by(listfile::read(file, values, cares))
}

// Essentials: one pass over the words of the chart finds the columns with a single entry; the primes that hold one of
// these entries are listed.
//
//     let mut places = [0u16; 9];
//     essentials::essentials(2, &[1, 0, 0, 2], &mut places)   // Ok(1): cube 0 (00); 11 matches no wanted code
#![tactic(auto, using(cube::proofs::Calls::refusals, cube::proofs::Calls::cubes_most))]

ghost use Rattle.std.specs.Prelude.{◌≡◌, [], cond, ◌<◌, ◌≤◌, ◌^◌, length};
ghost use Rattle.numbers.specs.Below.{tabulate};
ghost use Rattle.numbers.specs.Lent.{Puts};
ghost use Rattle.cube.specs.Words.{serving_prime, essential, essentials_of};
ghost use Rattle.cube.specs.Calls.{Listed};
ghost use Rattle.tables.specs.Listing.{primes_refuses};
ghost use Rattle.primes.specs.Steps.{Marks};
ghost use Rattle.chart_arrays.specs.Columns.{columns_of};
ghost use Rattle.essentials.specs.Steps.{prime_word, SoleColumns, HolderMarks};

use arrayvec::ArrayVec;
use cube::Refusal;
use matrix::columns;
use spelling::MOST_CUBES;
use tables::Table;

// The word of cube q: its columns if it is marked, else none.
fn prime_word(table: Table, marked: bool, q: usize) -> columns::Set
    requires { q < 3 ^ table.width }
    ensures { result ≡ cond marked (columns_of table.entry.width table.entry.cells.now q) 0 }
{
    if marked {
        chart_arrays::cube_columns(table, q)
    } else {
        columns::NONE
    }
}

// Notes the words of all cubes in an empty list that is lent: the columns of a prime, none for another cube. A prime that does not serve has no column.
fn prime_words(table: Table, marks: &[bool], words: &mut ArrayVec<columns::Set, MOST_CUBES>)
    requires none { words.old.items ≡ [] }
    requires long { length marks.now ≡ 3 ^ table.width }
    requires marked { Marks (λ b. b) (serving_prime table.width table.cells.now) marks.now (3 ^ table.width) }
    ensures { words.new.items ≡ tabulate (3 ^ table.entry.width) 0 (prime_word table.entry.width table.entry.cells.now) }
{
    for (q, marked) in marks.iter().enumerate() {
        words.push(prime_word(table, *marked, q));
    }
}

// The columns that one word alone has.
fn sole_columns(words: &[columns::Set]) -> columns::Set
    ensures { SoleColumns words.now (length words.now) result }
{
    let mut seen = columns::Coverage::new();
    for word in words {
        seen.add(*word);
    }
    seen.once - seen.twice
}

// Marks the words that have one of the columns. They are indexed: behind a `zip` of marks and words nothing is known of what was written.
fn mark_holders(words: &[columns::Set], sole: columns::Set, marks: &mut [bool])
    requires { length words.now ≤ length marks.old }
    ensures { HolderMarks words.now sole marks.new (length words.now) }
{
    for (q, word) in words.iter().enumerate() {
        marks[q] = word.meets(sole);
    }
}

// Marks the essential primes of a table, and no other cube.
fn mark_essentials(table: Table, marks: &mut [bool])
    requires { 3 ^ table.width ≤ length marks.old }
    ensures { Marks (λ b. b) (essential table.entry.width table.entry.cells.now) marks.new (3 ^ table.entry.width) }
{
    primes::mark_serving_primes(table, marks);
    let mut words = ArrayVec::new();
    prime_words(table, &marks[..table.cubes()], &mut words);
    let sole = sole_columns(words.as_slice());
    mark_holders(words.as_slice(), sole, marks);
}

// Lists the essential primes of a table, ascending, and returns their number. Not one function with `primes::list_serving_primes`: it would take the marking as
// a closure, with what that promises beside it, and a call of it would be as long as these lines.
fn list_essentials(table: Table, out: &mut [u16]) -> usize
    requires { 3 ^ table.width ≤ length out.old }
    ensures { Puts (essentials_of table.entry.width table.entry.cells.now) out.old 0 out.new result }
{
    let mut marks = [false; MOST_CUBES];
    mark_essentials(table, &mut marks);
    primes::list_marked(table.width, &marks, out)
}

// Writes the essential primes of a table into the first places, ascending by cube number, and answers how many there are.
pub fn essentials(n: usize, table: &[u8], out: &mut [u16]) -> Result<usize, Refusal>
    ensures { Listed (primes_refuses n table.now (length out.old)) (essentials_of n table.now) out.old out.new result }
{
    let table = Table::with_places(n, table, out.len())?;
    Ok(list_essentials(table, out))
}

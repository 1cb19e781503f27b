// Primes: in one ascending pass over the cubes it is noted of each whether it is an implicant, and of an implicant whether it
// serves, that is matches a wanted code; of a cube with untested digits from its two halves, which have smaller numbers. The
// implicants that serve and of which no literal can be given up are listed.
//
//     let mut places = [0u16; 9];
//     primes::primes(2, &[1, 0, 0, 2], &mut places)   // Ok(1): cube 0 (00); 11 matches no wanted code
#![tactic(auto, using(cube::proofs::Calls::refusals, cube::proofs::Calls::cubes_most))]

ghost use Rattle.std.specs.Prelude.{◌≡◌, false, not, ◌<◌, ◌≤◌, ◌^◌, [], eqb, length, refl};
ghost use Rattle.numbers.specs.Below.{flag, those};
ghost use Rattle.numbers.specs.Lent.{Puts};
ghost use Rattle.cube.specs.Words.{serving_prime, serving_primes_of};
ghost use Rattle.cube.specs.Calls.{widest, Listed};
ghost use Rattle.tables.specs.Listing.{primes_refuses};
ghost use Rattle.primes.specs.Steps.{kind, kind_of, KindsOf, Joins, MarksBelow, is_marked, expands_by, serving_prime_by};

use arrayvec::ArrayVec;
use cells::Split;
use cube::Refusal;
use spelling::{Cube, MOST_CUBES};
use tables::Table;

// A mark of a number: the test itself, or a byte as C has them.
pub trait Mark: Copy {
    ghost use Rattle.std.specs.Prelude.{Bool, ◌≡◌};

    // Which values mark, and the value that is put for the answer of a test.
    ghost is_mark: { Self → Bool };

    ghost mark_of: { Bool → Self };

    fn is_mark(self) -> bool
        ensures { result ≡ is_mark self };

    fn of(answer: bool) -> Self
        ensures { result ≡ mark_of answer };

    ghost tells: { (answer : Bool) → is_mark (mark_of answer) ≡ answer };
}

impl Mark for bool {
    ghost is_mark = { λ mark. mark };

    ghost mark_of = { λ answer. answer };

    #[inline]
    fn is_mark(self) -> bool {
        self
    }

    #[inline]
    fn of(answer: bool) -> bool {
        answer
    }

    ghost tells = { λ answer. refl };
}

// Every byte but 0 marks; 1 is put for a mark.
impl Mark for u8 {
    ghost use Rattle.std.specs.Prelude.{true};

    ghost is_mark = { λ mark. not (eqb mark 0) };

    ghost mark_of = { flag };

    #[inline]
    fn is_mark(self) -> bool {
        self != 0
    }

    #[inline]
    fn of(answer: bool) -> u8 {
        u8::from(answer)
    }

    ghost tells = { elim [ true ↦ refl | false ↦ refl ] };
}

// What is noted of a cube: of two kinds of implicants the greater one tells whether one of them serves.
#[derive(Clone, Copy, Default, PartialEq, Eq, PartialOrd, Ord)]
enum Kind {
    // It is no implicant.
    #[default]
    NoImplicant,
    // It is an implicant that matches free codes alone.
    Idle,
    // It is an implicant that serves.
    Serving,
}

// The kind of a cube that matches one code, by the code's cell.
fn code_kind(cell: u8) -> Kind
    ensures { result ≡ kind (not (eqb cell 0)) (eqb cell 1) }
{
    match cell {
        0 => Kind::NoImplicant,
        1 => Kind::Serving,
        _ => Kind::Idle,
    }
}

// The kind of a cube by the kinds of its halves.
fn joined_kind(low: Kind, high: Kind) -> Kind
    ensures { Joins low high result }
{
    if low == Kind::NoImplicant || high == Kind::NoImplicant {
        Kind::NoImplicant
    } else {
        low.max(high)
    }
}

// The kind of cube q, with the kinds of the cubes before it: from its cell, or from the kinds of its halves.
fn cube_kind(table: Table, kinds: &[Kind], q: usize) -> Kind
    requires cube { q < 3 ^ table.width }
    requires lower { KindsOf table.width table.cells.now kinds.now q }
    ensures { result ≡ kind_of table.entry.width table.entry.cells.now q }
{
    let width = table.width;
    match cells::split_at_first(Cube { width, number: q }) {
        Split::Code(code) => code_kind(table.cells[usize::from(code)]),
        Split::Halves(low, high) => joined_kind(kinds[low.number], kinds[high.number]),
    }
}

// Notes the kinds of the cubes of a table, each made from those before it, in an empty list that is lent: a list that is given back would be copied. An
// `ArrayVec` is pushed to in a loop, here and in the crates above: its `extend` and `collect` answer a `Result`, an error where an item finds the list full,
// which each function would have to rule out; `push` asks for room instead.
fn note_kinds(table: Table, kinds: &mut ArrayVec<Kind, MOST_CUBES>)
    requires { kinds.old.items ≡ [] }
    ensures { KindsOf table.entry.width table.entry.cells.now kinds.new.items (3 ^ table.entry.width) }
{
    for q in 0..table.cubes() {
        let kind = cube_kind(table, kinds.as_slice(), q);
        kinds.push(kind);
    }
}

// The kinds of the cubes of `width` digits.
#[derive(Clone, Copy)]
struct CubeKinds<'a> {
    width: usize,
    kinds: &'a [Kind],
    ghost narrow: { width ≤ widest },
    ghost enough: { 3 ^ width ≤ length kinds.now },
}

impl CubeKinds<'_> {
    // Whether digit k of a cube is a literal that can be given up.
    fn expands(self, cube: Cube, k: usize) -> bool
        requires { (cube.width ≡ self.width) × (k < self.width) }
        ensures { result ≡ expands_by self.entry.kinds.now cube.number k }
    {
        spelling::digit(cube.number, k) != 2
            && self.kinds[cube.with_digit(k, 2).number] != Kind::NoImplicant
    }

    // Whether a cube is an implicant that serves and of which no literal can be given up.
    #[tactic(auto, unfolding(crate::specs::Steps::serving_prime_by))]
    fn is_serving_prime(self, cube: Cube) -> bool
        requires { cube.width ≡ self.width }
        ensures { result ≡ serving_prime_by self.entry.width self.entry.kinds.now cube.number }
    {
        self.kinds[cube.number] == Kind::Serving && !(0..self.width).any(|k| self.expands(cube, k))
    }

    // Marks the primes that serve.
    fn mark_maximal<T: Mark>(self, marks: &mut [T])
        requires { 3 ^ self.width ≤ length marks.old }
        ensures { MarksBelow T.mark_of (3 ^ self.entry.width) (serving_prime_by self.entry.width self.entry.kinds.now) marks.old marks.new }
    {
        let width = self.width;
        for (q, mark) in marks[..spelling::cubes(width)].iter_mut().enumerate() {
            *mark = T::of(self.is_serving_prime(Cube { width, number: q }));
        }
    }
}

// Marks the primes of a table that serve, and no other cube. Marks past those of the cubes are left alone.
pub fn mark_serving_primes<T: Mark>(table: Table, marks: &mut [T])
    requires { 3 ^ table.width ≤ length marks.old }
    ensures { MarksBelow T.mark_of (3 ^ table.entry.width) (serving_prime table.entry.width table.entry.cells.now)
        marks.old marks.new }
{
    let mut kinds = ArrayVec::new();
    note_kinds(table, &mut kinds);
    let kinds = CubeKinds {
        width: table.width,
        kinds: kinds.as_slice(),
    };
    kinds.mark_maximal(marks);
}

// Lists the marked numbers, ascending, and returns how many there are. They are counted beside the places, which are the caller's, as C lends them.
fn list_all_marked<T: Mark>(marks: &[T], out: &mut [u16]) -> usize
    requires { (length marks.now ≤ 3 ^ widest) × (length marks.now ≤ length out.old) }
    ensures { Puts (those (length marks.now) (is_marked T.is_mark (T.mark_of false) marks.now)) out.old 0 out.new result }
{
    let mut count = 0;
    for (q, mark) in marks.iter().enumerate() {
        if mark.is_mark() {
            out[count] = q as u16;
            count += 1;
        }
    }
    count
}

// Lists the marked cubes of n digits, ascending, and returns how many there are.
pub fn list_marked<T: Mark>(n: usize, marks: &[T], out: &mut [u16]) -> usize
    requires { (n ≤ widest) × (3 ^ n ≤ length marks.now) × (3 ^ n ≤ length out.old) }
    ensures { Puts (those (3 ^ n) (is_marked T.is_mark (T.mark_of false) marks.now)) out.old 0 out.new result }
{
    list_all_marked(&marks[..spelling::cubes(n)], out)
}

// Lists the primes of a table that serve, ascending, and returns their number.
pub fn list_serving_primes(table: Table, out: &mut [u16]) -> usize
    requires { 3 ^ table.width ≤ length out.old }
    ensures { Puts (serving_primes_of table.entry.width table.entry.cells.now) out.old 0 out.new result }
{
    let mut marks = [false; MOST_CUBES];
    mark_serving_primes(table, &mut marks);
    list_marked(table.width, &marks, out)
}

// Writes the primes of a table that match a wanted code into the first places, ascending by cube number. Answers how many there are, or why it
// refuses.
pub fn primes(n: usize, cells: &[u8], out: &mut [u16]) -> Result<usize, Refusal>
    ensures { Listed (primes_refuses n cells.now (length out.old)) (serving_primes_of n cells.now)
        out.old out.new result }
{
    let table = Table::with_places(n, cells, out.len())?;
    Ok(list_serving_primes(table, out))
}

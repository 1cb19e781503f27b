// The linear program for the prices: the prices of the undecided columns, and that of a row as often as rows are needed, are to be worth the most together,
// and no live row may weigh less than its undecided columns and a row cost together. A heuristic: nothing is promised about the prices, since the
// certificate is checked.
//
// It is solved by the simplex method on a condensed tableau. A row of it stands for a live row of the matrix and has a basic variable; the other variables
// stand at its places. Behind the last place is the right side, and below the last row are the gains.
ghost use Rattle.std.specs.Prelude.{◌≡◌, ℕ, ◌<◌, ◌≤◌, length, IfSome};
ghost use Rattle.matrix.specs.Sets.{column_limit, row_limit};
ghost use Rattle.matrix.specs.Matrix.{row_count, weight_limit};
ghost use Rattle.arrayvec.specs.ArrayVec.{array_vec_len};
ghost use Rattle.pricing.specs.declared.simplex.Meaning.TheVariants.{Price, Slack};
ghost use Rattle.pricing.specs.Tableau.{most_rows, most_places};

use crate::Prices;
use arrayvec::ArrayVec;
use matrix::{Matrix, Subproblem, columns, rows};
use std::mem;
use std::num::{nearest_u32_to_f32, nearest_u64_to_f32, saturating_f32_to_u64};

// The most rows of the linear program: for more there is none.
pub const ROWS: usize = 96;

// The most places: one for the price of each column, and one for that of a row.
pub const PLACES: usize = columns::LIMIT + 1;

// A row of the tableau: a cell for each place, and behind them the right side.
pub type Line = [f32; PLACES + 1];

// The tableau: its rows, and below them the gains.
pub type Cells = [Line; ROWS + 1];

// What a variable is: the price of a column, the price of a row, or the slack of a row of the matrix.
#[derive(Clone, Copy)]
enum Meaning {
    Price(usize),
    Fee,
    Slack(usize),
}

// A variable, and the factor by which its gain is compared with others.
#[derive(Clone, Copy)]
struct Variable {
    meaning: Meaning,
    factor: f32,
    ghost column_in: { (c : ℕ) → meaning ≡ Price c → c < column_limit },
    ghost row_in: { (i : ℕ) → meaning ≡ Slack i → i < row_limit },
}

// What outlives a linear program: a share for each row of the matrix, the columns whose prices were in the last basis, and whether the price of a row was.
// The prices of columns are the bits of a set, and that of a row, which is no column's, has a bit of its own.
#[derive(Clone, Copy, Debug, Default, PartialEq, PartialOrd)]
pub struct Recalled {
    pub shares: [f32; rows::LIMIT],
    pub basic: columns::Set,
    pub fee: bool,
}

// What a linear program gives: prices for the columns, the price of a row, and whether it was solved to the end. That does not say whether there are prices:
// they stand either way, and it says only how good they are.
#[derive(Drop)]
pub struct Priced {
    pub prices: Prices,
    pub fee: u64,
    pub optimal: bool,
}

// The most pivots.
const STEPS: u32 = 500;

// The least gain that counts.
const LEAST_GAIN: f32 = 0.000244140625;

// The least entry that may be a pivot.
const LEAST_PIVOT: f32 = 0.01;

// By how much a right side may fall below zero.
const TOLERANCE: f32 = 0.0015;

// The parts of a unit of weight in which prices are counted.
const PARTS: f32 = crate::SCALE as f32;

// The rows' weights are lowered by small multiples of this number, so that they differ.
const SPREAD: f32 = 0.000244140625;

// The price of a row: `ArrayVec` needs some variable for the room that it does not use.
impl Default for Variable {
    fn default() -> Variable {
        Variable::fee()
    }
}

// A function for each kind, and not one of the meaning, which would ask for the facts of both ghost fields.
impl Variable {
    // The price of a row.
    fn fee() -> Variable {
        Variable {
            meaning: Meaning::Fee,
            factor: 1.0,
        }
    }

    // The price of the column c.
    fn price(c: usize) -> Variable
        requires { c < column_limit }
    {
        Variable {
            meaning: Meaning::Price(c),
            factor: 1.0,
        }
    }

    // The slack of the row i of the matrix.
    fn slack(i: usize) -> Variable
        requires { i < row_limit }
    {
        Variable {
            meaning: Meaning::Slack(i),
            factor: 1.0,
        }
    }

    // The gain of this price before the first pivot.
    fn first_gain(self, need: f32) -> f32 {
        match self.meaning {
            Meaning::Fee => need,
            _ => 1.0,
        }
    }
}

impl Recalled {
    // Whether a variable is a price that was in the last basis.
    fn has(&self, variable: Variable) -> bool {
        match variable.meaning {
            Meaning::Price(c) => self.basic.contains(c),
            Meaning::Fee => self.fee,
            Meaning::Slack(_) => false,
        }
    }

    // Notes a variable that is basic, if it is a price.
    fn note(&mut self, variable: Variable) {
        match variable.meaning {
            Meaning::Price(c) => self.basic |= columns::Set::only(c),
            Meaning::Fee => self.fee = true,
            Meaning::Slack(_) => {}
        }
    }
}

// The variables at the places.
type Places = ArrayVec<Variable, PLACES>;

// The tableau in use: its cells, the basic variable of each row, and the variable at each place.
#[derive(Drop)]
struct Tableau<'a> {
    cells: &'a mut Cells,
    rows: ArrayVec<Variable, ROWS>,
    places: Places,
}

// The undecided columns' prices, and then the price of a row if rows are needed. They are pushed one by one, here and in `load_rows`: `extend` answers a `Result`,
// which would have to be ruled out.
fn places_of(undecided: columns::Set, need: u64) -> Places {
    let mut places = ArrayVec::new();
    for c in undecided {
        places.push(Variable::price(c));
    }
    if need != 0 {
        places.push(Variable::fee());
    }
    places
}

// The right side of the row i of the matrix: its weight, a little lower.
fn right_side(matrix: Matrix, i: usize) -> f32
    requires { i < row_count matrix.words.now }
{
    let part = (i * 7 % 16) as u16;
    nearest_u32_to_f32(matrix.weights[i]) - f32::from(part) * SPREAD
}

// The place of the price of the undecided column c: behind those of the undecided columns below it.
fn place_of(undecided: columns::Set, c: usize) -> usize
    requires { c < column_limit }
    ensures { result < most_places }
{
    (undecided - (columns::ALL << c)).len()
}

// Loads a row of the tableau for the row i of the matrix: an entry of 1 for each of its undecided columns, and the right side behind the last place. The price
// of a row has the entry 1 too, behind the columns' prices; where it has no place, the right side stands there.
fn load_row(line: &mut Line, problem: &Subproblem, places: &Places, i: usize)
    requires { i < row_count problem.now.matrix.words.now }
{
    *line = [0.0; PLACES + 1];
    for c in problem.columns_of(i) {
        line[place_of(problem.undecided, c)] = 1.0;
    }
    line[problem.undecided.len()] = 1.0;
    line[places.len()] = right_side(problem.matrix, i);
}

// Loads the live rows, each with its slack as its basic variable, unless there is none or there are too many.
fn load_rows(
    problem: &Subproblem,
    places: &Places,
    cells: &mut Cells,
) -> Option<ArrayVec<Variable, ROWS>> {
    let mut rows = ArrayVec::new();
    for i in problem.rows() {
        if rows.is_full() {
            return None;
        }
        load_row(&mut cells[rows.len()], problem, places, i);
        rows.push(Variable::slack(i));
    }
    if rows.is_empty() { None } else { Some(rows) }
}

// How many rows have an entry at the place j.
fn entries(lines: &[Line], j: usize) -> u16
    requires { (length lines.now ≤ most_rows) × (j < most_places) }
    ensures { result ≤ most_rows }
{
    lines.iter().filter(|line| line[j] != 0.0).count() as u16
}

// The first whole number from 4 on that is no less than 4 times the square root of n.
fn root_of(n: u16) -> u16
    requires { n ≤ most_rows }
{
    (4..40).find(|r| 16 * n <= r * r).unwrap_or(40)
}

// The factor of a price with n entries: lower for more of them, and higher if it is marked.
fn factor_of(marked: bool, n: u16) -> f32
    requires { n ≤ most_rows }
{
    let factor = 4.0 / f32::from(root_of(n));
    if marked { 4.0 * factor } else { factor }
}

// A right side, or 0 if it is below.
// Not `max`, which takes 0 for what is no number.
fn at_least_zero(side: f32) -> f32 {
    if side < 0.0 { 0.0 } else { side }
}

// The lower of a ratio and that of a row with a right side and an entry, if the entry may be a pivot. They are compared by a product, so that only a lower one
// is divided: `min` would divide each.
fn lower_ratio(ratio: f32, side: f32, entry: f32) -> f32 {
    if LEAST_PIVOT < entry {
        let loose = at_least_zero(side) + TOLERANCE;
        if loose < ratio * entry {
            return loose / entry;
        }
    }
    ratio
}

// Whether an entry may be the pivot: its row limits the price by no more than the ratio.
fn is_pivot(ratio: f32, side: f32, entry: f32) -> bool {
    LEAST_PIVOT < entry && at_least_zero(side) <= ratio * entry
}

// Divides the row of the pivot up to its right side, with 1 at the place q, by the pivot, which was the entry there.
fn divide(line: &mut Line, q: usize, places: &Places)
    requires { q < array_vec_len places.now }
{
    let side = places.len();
    let inverse = 1.0 / line[q];
    line[q] = 1.0;
    for cell in &mut line[..=side] {
        *cell *= inverse;
    }
}

// Subtracts from a row up to its right side the multiple of the divided row that exchanges the variable at the place q.
fn eliminate(line: &mut Line, q: usize, places: &Places, divided: &Line)
    requires { q < array_vec_len places.now }
{
    let side = places.len();
    let factor = line[q];
    if factor == 0.0 {
        return;
    }
    line[q] = 0.0;
    for (cell, other) in line[..=side].iter_mut().zip(divided) {
        *cell -= factor * *other;
    }
}

// A price in parts of `SCALE`, modulo 2 ^ 32, or 0 if it is out of range.
// The upper end is tested here, since a cast that saturates gives the highest price there.
fn price_of(price: f32) -> u32 {
    let parts = price * PARTS;
    if parts < 18446744073709551616.0 {
        (saturating_f32_to_u64(parts) % (1 << 32)) as u32
    } else {
        0
    }
}

// A need or a target as the nearest float, or as the float of 2 ^ 32 if it is larger.
// A function of its own, since no `From` rounds or has an upper end.
fn float_of(n: u64) -> f32 {
    nearest_u64_to_f32(n.min(1 << 32))
}

impl<'a> Tableau<'a> {
    // Loads the gains.
    fn load_gains(&mut self, need: f32) {
        let cells = &mut *self.cells;
        let gains = &mut cells[self.rows.len()];
        for (gain, variable) in gains.iter_mut().zip(&self.places) {
            *gain = variable.first_gain(need);
        }
        gains[self.places.len()] = 0.0;
    }

    // Gives each place the factor of its price.
    fn load_factors(&mut self, recalled: &Recalled) {
        let cells = &*self.cells;
        let lines = &cells[..self.rows.len()];
        for (j, variable) in self.places.iter_mut().enumerate() {
            variable.factor = factor_of(recalled.has(*variable), entries(lines, j));
        }
    }

    // The place with the highest gain by its factor, if a gain counts.
    fn entering(&self) -> Option<usize>
        ensures { IfSome result (λ q. q < array_vec_len self.now.places) }
    {
        let mut best: Option<(usize, f32)> = None;
        let cells = &*self.cells;
        for (q, (variable, gain)) in self.places.iter().zip(&cells[self.rows.len()]).enumerate() {
            let rated = *gain * variable.factor;
            if LEAST_GAIN < *gain && best.is_none_or(|(_, highest)| highest < rated) {
                best = Some((q, rated));
            }
        }
        best.map(|(q, _)| q)
    }

    // The least ratio of a right side, with the tolerance, to an entry at the place q.
    fn least_ratio(&self, q: usize) -> f32
        requires { q < array_vec_len self.now.places }
    {
        // No row limits the price so far. Not infinity, which would take a right side above 10^28 for a limit too. An `Option` would take the first row for
        // a limit in every case, and the prices are to stay what they were.
        let mut ratio = 1.0e30;
        let side = self.places.len();
        for line in &self.cells[..self.rows.len()] {
            ratio = lower_ratio(ratio, line[side], line[q]);
        }
        ratio
    }

    // The row of the widest entry at the place q that may be the pivot.
    fn leaving(&self, q: usize) -> Option<usize>
        requires { q < array_vec_len self.now.places }
        ensures { IfSome result (λ p. p < array_vec_len self.now.rows) }
    {
        let ratio = self.least_ratio(q);
        let mut best: Option<(usize, f32)> = None;
        let side = self.places.len();
        for (p, line) in self.cells[..self.rows.len()].iter().enumerate() {
            let entry = line[q];
            if best.is_none_or(|(_, widest)| widest < entry) && is_pivot(ratio, line[side], entry) {
                best = Some((p, entry));
            }
        }
        best.map(|(p, _)| p)
    }

    // Makes the variable at the place q basic in the row p, in exchange for that row's.
    fn pivot(&mut self, p: usize, q: usize)
        requires { (p < array_vec_len self.old.rows) × (q < array_vec_len self.old.places) }
    {
        let rows = self.rows.len();
        let cells = &mut *self.cells;
        divide(&mut cells[p], q, &self.places);
        let divided = cells[p];
        for (i, line) in cells[..=rows].iter_mut().enumerate() {
            if i != p {
                eliminate(line, q, &self.places, &divided);
            }
        }
        mem::swap(&mut self.rows[p], &mut self.places[q]);
    }

    // What the prices are worth.
    fn worth(&self) -> f32 {
        let cells = &*self.cells;
        -cells[self.rows.len()][self.places.len()]
    }

    // Pivots until no gain counts. Returns whether that was reached: it stops before if the prices are worth more than the target, if no row limits a price,
    // or after too many pivots.
    fn solve(&mut self, target: f32) -> bool {
        for _ in 0..STEPS {
            let Some(q) = self.entering() else {
                return true;
            };
            let Some(p) = self.leaving(q) else {
                return false;
            };
            self.pivot(p, q);
            if target < self.worth() {
                return false;
            }
        }
        false
    }

    // The prices of the columns: 0 for those that are not basic, as every variable is that is not.
    fn prices(&self) -> Prices {
        let mut prices = [0; columns::LIMIT];
        for (variable, line) in self.rows.iter().zip(self.cells.iter()) {
            if let Meaning::Price(c) = variable.meaning {
                prices[c] = price_of(line[self.places.len()]);
            }
        }
        prices
    }

    // The price of a row: 0 if it is not basic, which is what it is worth then and stands for nothing that is missing.
    fn fee(&self) -> u32 {
        let side = self.places.len();
        self.rows
            .iter()
            .zip(self.cells.iter())
            .find(|(variable, _)| matches!(variable.meaning, Meaning::Fee))
            .map_or(0, |(_, line)| price_of(line[side]))
    }

    // Notes the share of each row of the matrix: what its slack costs, and 0 where that is basic.
    fn note_shares(&self, recalled: &mut Recalled) {
        recalled.shares = [0.0; rows::LIMIT];
        let cells = &*self.cells;
        for (variable, gain) in self.places.iter().zip(&cells[self.rows.len()]) {
            if let Meaning::Slack(i) = variable.meaning {
                recalled.shares[i] = -*gain;
            }
        }
    }

    // Recalls which prices are basic, and the rows' shares if the linear program is solved to the end.
    fn recall(&self, optimal: bool, recalled: &mut Recalled) {
        recalled.basic = columns::NONE;
        recalled.fee = false;
        for variable in &self.rows {
            recalled.note(*variable);
        }
        if optimal {
            self.note_shares(recalled);
        }
    }
}

// Prices by the linear program, in which `need` rows are needed, and which may stop where the prices are worth more than the target; of either number no more
// than 2 ^ 32 counts. The prices are 0 where there is no linear program.
pub fn prices(
    problem: &Subproblem,
    need: u64,
    target: u64,
    cells: &mut Cells,
    recalled: &mut Recalled,
) -> Priced
    ensures { result.fee < weight_limit }
{
    let places = places_of(problem.undecided, need);
    let Some(rows) = load_rows(problem, &places, cells) else {
        return Priced {
            prices: [0; columns::LIMIT],
            fee: 0,
            optimal: false,
        };
    };
    let mut tableau = Tableau {
        cells,
        rows,
        places,
    };
    tableau.load_gains(float_of(need));
    tableau.load_factors(recalled);
    let optimal = tableau.solve(float_of(target));
    tableau.recall(optimal, recalled);
    Priced {
        prices: tableau.prices(),
        fee: u64::from(tableau.fee()),
        optimal,
    }
}

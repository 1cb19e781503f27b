// A local search for a light cover. Rows enter and leave a selection, and a column that stays open for long gets a higher price. The score of a row is what
// its entering or leaving is worth: the prices of the columns that are then covered and were not, less those of the columns that were covered and then are
// not. A heuristic: nothing is promised of the rows that it picks.
ghost use Rattle.std.specs.Prelude.{◌<◌, IfSome};
ghost use Rattle.matrix.specs.Matrix.{row_count};
ghost use Rattle.matrix.specs.Sets.{column_limit, row_limit};
ghost use Rattle.incumbent.specs.Incumbent.{Incumbent};

use crate::{Cover, greedy, limit_with};
use matrix::transposed::Indexed;
use matrix::{Matrix, Subproblem, columns, rows};

// The search ends after this many steps.
const STEPS: u32 = 100;

// The first number of the random sequence.
const SEED: u64 = 88172645463325252;

// What is known of a row: its score, and the step at which it last entered or left.
#[derive(Clone, Copy)]
struct Standing {
    score: f32,
    stamp: u32,
}

// What is known of a column: its price, and how many rows of the selection cover it.
#[derive(Clone, Copy)]
struct Demand {
    price: f32,
    count: u32,
}

// The rows inside the selection, the undecided columns that they leave open, and their weight; the rows that may enter, since a row that shares a column with
// them changed after they left, and the row that may not leave, since it entered last; the number of steps and the last random number; the lightest cover so
// far, and the limit that it is below; and what is known of each row and each column.
#[derive(Drop)]
struct Workspace {
    inside: rows::Set,
    open: columns::Set,
    weight: u64,
    candidates: rows::Set,
    tabu: Option<usize>,
    step: u32,
    seed: u64,
    best: Option<Cover>,
    limit: u64,
    rows: [Standing; rows::LIMIT],
    columns: [Demand; columns::LIMIT],
}

// The next number of the random sequence.
fn random(seed: u64) -> u64 {
    let a = seed ^ (seed << 13);
    let b = a ^ (a >> 7);
    b ^ (b << 17)
}

// A random column of a set.
fn some_column(set: columns::Set, seed: u64) -> Option<usize>
    ensures { IfSome result (λ c. c < column_limit) }
{
    set.next_from(seed as usize % columns::LIMIT)
        .or(set.first())
}

impl Workspace {
    // The selection without a row.
    fn new(problem: &Subproblem, limit: u64) -> Workspace {
        Workspace {
            inside: rows::Set::none(),
            open: problem.undecided,
            weight: 0,
            candidates: *problem.live,
            tabu: None,
            step: 0,
            seed: SEED,
            best: None,
            limit,
            rows: [Standing {
                score: 0.0,
                stamp: 0,
            }; rows::LIMIT],
            columns: [Demand {
                price: 0.0,
                count: 0,
            }; columns::LIMIT],
        }
    }

    // Adds an amount to the scores of the rows noted at the column c.
    fn add(&mut self, indexed: &Indexed, c: usize, amount: f32)
        requires { c < column_limit }
    {
        for i in indexed.rows_of(c) {
            self.rows[i].score += amount;
        }
    }

    // The scores of the rows of the column c once it is covered n + 1 times in place of n, because the row i entered. With its price negated: once it is
    // covered n times in place of n + 1, because the row i left.
    #[tactic(auto, using(numbers::proofs::Closures::asked))]
    fn rescore(&mut self, indexed: &Indexed, c: usize, i: usize, n: u32, price: f32)
        requires { c < column_limit }
    {
        if n == 0 {
            self.add(indexed, c, -price);
        }
        if n == 1 {
            let other = indexed
                .rows_of(c)
                .find(|&j| j != i && self.inside.contains(j));
            if let Some(j) = other {
                self.rows[j].score += price;
            }
        }
    }

    // The column c counted once less, since the row i leaves, or once more, since it enters. Counts and weights wrap, since nothing is promised of them.
    fn recount(&mut self, indexed: &Indexed, c: usize, i: usize)
        requires { (c < column_limit) × (i < row_limit) }
    {
        let Demand { price, count } = self.columns[c];
        if self.inside.contains(i) {
            self.columns[c].count = count.wrapping_sub(1);
            self.rescore(indexed, c, i, count.wrapping_sub(1), -price);
        } else {
            self.columns[c].count = count.wrapping_add(1);
            self.rescore(indexed, c, i, count, price);
        }
        if self.columns[c].count == 0 {
            self.open |= columns::Set::only(c);
        } else {
            self.open -= columns::Set::only(c);
        }
    }

    // The row i enters, or leaves where it is inside. Its score changes its sign, and the rows that share a column with it become candidates.
    fn flip(&mut self, indexed: &Indexed, i: usize)
        requires { i < row_count indexed.now.problem.matrix.words.now }
    {
        let matrix = indexed.problem.matrix;
        let own = self.rows[i].score;
        for c in indexed.problem.columns_of(i) {
            self.recount(indexed, c, i);
            self.candidates = self.candidates.union(indexed.rows_at(c));
        }
        self.rows[i] = Standing {
            score: -own,
            stamp: self.step,
        };
        let weight = matrix.weight(i);
        if self.inside.contains(i) {
            self.inside.remove(i);
            self.candidates.remove(i);
            self.weight = self.weight.wrapping_sub(weight);
        } else {
            self.inside.insert(i);
            self.weight = self.weight.wrapping_add(weight);
        }
    }

    // Whether the row i has a higher score than the row j, or the same score and an earlier stamp.
    fn is_better(&self, i: usize, j: usize) -> bool
        requires { (i < row_limit) × (j < row_limit) }
    {
        let a = self.rows[i];
        let b = self.rows[j];
        (b.score, a.stamp) < (a.score, b.stamp)
    }

    // The best row to leave leaves.
    fn leave(&mut self, indexed: &Indexed) {
        let row = self.inside.best(
            indexed.problem.matrix.rows(),
            |i| self.tabu != Some(i),
            |i, j| self.is_better(i, j),
        );
        if let Some(i) = row {
            self.flip(indexed, i);
        }
    }

    // What a lighter cover weighs less than.
    fn least(&self) -> u64 {
        limit_with(&self.best, self.limit)
    }

    // Whether the row i is a candidate that is outside, and the selection stays lighter than the lightest cover so far when it enters.
    fn may_enter(&self, matrix: Matrix, i: usize) -> bool
        requires { i < row_count matrix.words.now }
    {
        let room = self.least().saturating_sub(self.weight);
        !self.inside.contains(i) && self.candidates.contains(i) && matrix.weight(i) < room
    }

    // The best row for a random open column enters, and the columns still open get dearer.
    fn enter(&mut self, indexed: &Indexed) {
        self.seed = random(self.seed);
        let Some(c) = some_column(self.open, self.seed) else {
            return
        };
        let matrix = indexed.problem.matrix;
        let row = indexed.rows_at(c).best(
            matrix.rows(),
            |i| self.may_enter(matrix, i),
            |i, j| self.is_better(i, j),
        );
        let Some(i) = row else { return };
        self.flip(indexed, i);
        self.tabu = Some(i);
        self.raise(indexed, self.open);
    }

    // Raises the prices of the columns of a set by 1, and the scores of their rows with them.
    fn raise(&mut self, indexed: &Indexed, set: columns::Set) {
        for c in set {
            self.columns[c].price += 1.0;
            self.add(indexed, c, 1.0);
        }
    }

    // The selection, noted as the lightest cover if it is one.
    fn note(&mut self) {
        if self.open.is_empty() && self.weight < self.least() {
            self.best = Some(Cover {
                weight: self.weight,
                rows: self.inside,
            });
        }
    }

    // One step: a row leaves, and a row for an open column enters, unless the selection was a cover.
    fn step(&mut self, indexed: &Indexed) {
        self.note();
        self.step = self.step.wrapping_add(1);
        let was_cover = self.open.is_empty();
        self.leave(indexed);
        if !was_cover {
            self.enter(indexed);
        }
    }

    // The rows of a greedy cover enter, with each undecided column at the price 1.
    fn start(&mut self, indexed: &Indexed) {
        let problem = &indexed.problem;
        self.raise(indexed, problem.undecided);
        let rows = greedy::cover(problem);
        for i in rows.iter(problem.matrix.rows()) {
            self.flip(indexed, i);
        }
    }
}

// The lightest cover that the search comes by, if it weighs less than the limit.
pub fn found(indexed: &Indexed, limit: u64) -> Option<Cover>
    ensures { let p = indexed.now.problem in IfSome result (λ c. Incumbent p.matrix.words.now p.matrix.weights.now p.live.now p.undecided limit c) }
{
    let mut workspace = Workspace::new(&indexed.problem, limit);
    workspace.start(indexed);
    for _ in 0..STEPS {
        workspace.step(indexed);
    }
    workspace.note();
    crate::checked(&indexed.problem, &workspace.best?.rows, limit)
}

// Covers that need not be lightest: the first limits of the search. They are found by heuristics, and `checked` keeps the rows that one picks only if they
// are a cover.
//
// Rows {0, 1}, {1, 2} and {0, 2}, each of weight 5, for the columns 0, 1 and 2: the rows 0 and 1 are a cover of weight 10, and the row 0 alone is none.
#![tactic(auto)]

ghost use Rattle.std.specs.Prelude.{◌≡◌, false, List, ℕ, ◌<◌, ◌≤◌, ◌||◌, ◌⊎◌, eqb, IfSome, IfNone};
ghost use Rattle.matrix.specs.Matrix.{row_count};
ghost use Rattle.matrix.specs.Sets.{In, member, Member};
ghost use Rattle.incumbent.specs.Incumbent.{weight_or, IsCover, Incumbent};
ghost use Rattle.incumbent.specs.Steps.{Counted};

use matrix::{Matrix, Subproblem, columns, rows};

pub mod greedy;
pub mod local;

// A cover: its rows, and what they weigh.
#[derive(Clone, Copy)]
pub struct Cover {
    pub weight: u64,
    pub rows: rows::Set,
}

// The limit of a search for a lighter cover: what this one weighs, or the limit so far where there is none.
pub fn limit_with(cover: &Option<Cover>, limit: u64) -> u64
    ensures { result ≡ weight_or limit cover.now }
{
    match cover {
        Some(found) => found.weight,
        None => limit,
    }
}

// Rows, the columns that they cover, and what they weigh. That these are counted is asked of callers, with the matrix: as a ghost field it was tried, and is
// refused, since `Counted` gives a row for each column, and so is no proposition.
#[derive(Clone, Copy)]
struct Gathered {
    rows: rows::Set,
    columns: columns::Set,
    weight: u64,
}

impl Gathered {
    // No row.
    fn none() -> Gathered
        ensures rows { (j : ℕ) → member result.rows j ≡ false }
        ensures counted { (words weights : List ℕ) → Counted words weights result }
    {
        Gathered {
            rows: rows::Set::none(),
            columns: columns::NONE,
            weight: 0,
        }
    }

    // One more row of the matrix.
    fn add(&mut self, matrix: Matrix, i: usize)
        requires row { i < row_count matrix.words.now }
        requires new { member self.old.rows i ≡ false }
        requires counted { Counted matrix.words.now matrix.weights.now self.old }
        ensures rows { (j : ℕ) → member self.new.rows j ≡ (eqb j i || member self.old.rows j) }
        ensures counted { Counted matrix.entry.words.now matrix.entry.weights.now self.new }
    {
        self.rows.insert(i);
        self.columns |= matrix.columns_of(i);
        self.weight += matrix.weight(i);
    }

    // The rows, if they cover the undecided columns and weigh less than the limit.
    fn cover(&self, problem: &Subproblem, limit: u64) -> Option<Cover>
        requires counted { Counted problem.now.matrix.words.now problem.now.matrix.weights.now self.now }
        requires live { (i : ℕ) → Member self.now.rows i → Member problem.now.live.now i }
        ensures some { let p = problem.now in IfSome result (λ c. Incumbent p.matrix.words.now p.matrix.weights.now p.live.now p.undecided limit c) }
        ensures none { IfNone result ((limit ≤ self.now.weight) ⊎ ((x : ℕ) × In problem.now.undecided x × (In self.now.columns x → ⊥))) }
    {
        if self.weight < limit && problem.undecided.is_subset(self.columns) {
            return Some(Cover {
                weight: self.weight,
                rows: self.rows,
            });
        }
        None
    }
}

// The live rows of those picked, if they cover the undecided columns and weigh less than the limit.
#[tactic(auto, using(numbers::proofs::Loops::turn_in))]
pub fn checked(problem: &Subproblem, picked: &rows::Set, limit: u64) -> Option<Cover>
    ensures none { let p = problem.now in IfNone result ((k : ℕ) → IsCover p.matrix.words.now p.matrix.weights.now p.live.now p.undecided picked.now k → limit ≤ k) }
    ensures some { let p = problem.now in IfSome result (λ c. Incumbent p.matrix.words.now p.matrix.weights.now p.live.now p.undecided limit c) }
{
    let matrix = problem.matrix;
    let mut gathered = Gathered::none();
    for i in picked.iter(matrix.rows()) {
        if problem.live.contains(i) {
            gathered.add(matrix, i);
        }
    }
    gathered.cover(problem, limit)
}

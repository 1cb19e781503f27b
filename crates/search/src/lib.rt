// The lightest cover of a covering matrix, by branch and bound: reduce what is left, bound it, choose a row, and search with it and without it. `reduce` and
// `choose` call each other, and the number of live rows falls.
//
// Rows {0, 1}, {1, 2} and {0, 2}, each of weight 5, for the columns 0, 1 and 2: the minimum cover has two of them and weighs 10.
#![tactic(auto)]

ghost use Rattle.std.specs.Prelude.{◌≡◌, ℕ, ◌<◌, ◌↔◌, IsSome, IfSome};
ghost use Rattle.matrix.specs.Matrix.{row_count, weight_limit};
ghost use Rattle.matrix.specs.Sets.{row_limit, In, Member};
ghost use Rattle.search.specs.Search.{Coverable, MinimumCover};
ghost use Rattle.bound.specs.Bound.{cost_limit};
ghost use Rattle.search.specs.Steps.{BranchesBelow, Found, IsSmall, Lighter, Taking, WithTaken};

use incumbent::{Cover, greedy, limit_with};
use matrix::{Matrix, Subproblem, columns, rows};
use reduction::Remaining;

pub mod branching;

// The first limit: more than all rows can weigh.
pub const FIRST_LIMIT: u64 = 1 << 42;

// What a search answers: the lightest cover, if there is one, and what it took: the nodes visited and the depth of the calls.
#[derive(Clone, Copy)]
pub struct Solution {
    pub cover: Option<Cover>,
    pub nodes: u64,
    pub depth: u64,
}

// The row r, of weight w, with the answer for what it leaves.
fn taking(found: Solution, r: usize, w: u64) -> Solution
    requires { (r < row_limit) × (w < weight_limit) × IsSmall found.cover }
    ensures { Taking found.cover r w result.cover }
{
    Solution {
        cover: found.cover.map(|mut cover| {
            cover.rows.insert(r);
            cover.weight += w;
            cover
        }),
        ..found
    }
}

// The rows that a reduction took, with the answer for what it left: one more node, and one call deeper.
fn with_taken(rest: &Remaining, found: Solution) -> Solution
    requires { (rest.now.cost < cost_limit) × IsSmall found.cover }
    ensures { WithTaken rest.now.taken rest.now.cost found.cover result.cover }
{
    Solution {
        cover: found.cover.map(|cover| Cover {
            weight: rest.cost + cover.weight,
            rows: rest.taken.union(&cover.rows),
        }),
        nodes: found.nodes.wrapping_add(1),
        depth: found.depth.wrapping_add(1),
    }
}

// The lighter of an incumbent and the answer of a search below it, with what both took.
fn lighter(incumbent: Solution, found: Solution) -> Solution
    ensures { Lighter incumbent.cover found.cover result.cover }
{
    Solution {
        cover: found.cover.or(incumbent.cover),
        nodes: incumbent.nodes.wrapping_add(found.nodes),
        depth: incumbent.depth.max(found.depth),
    }
}

// The answer at a node where the search ends.
fn leaf(cover: Option<Cover>) -> Solution
    ensures { result.cover ≡ cover }
{
    Solution {
        cover,
        nodes: 1,
        depth: 1,
    }
}

// Leaves the live rows that a cover below the limit can have, and answers the one of these to branch on, or `None` where no cover is below the limit.
// The parts of a `Subproblem` come one by one: the rows are lent to be changed. Given back instead, they would come beside the row in a struct of their own.
// It is not inlined, for the reason told at `bound`: what it calls has arrays, which are not to lie on the stack of the calls on the way down.
#[inline(never)]
fn branch_point(
    matrix: Matrix,
    live: &mut rows::Set,
    undecided: columns::Set,
    limit: u64,
) -> Option<usize>
    requires { (limit < cost_limit) × ((c : ℕ) × In undecided c) }
    ensures { BranchesBelow matrix.entry.words.now matrix.entry.weights.now live.old undecided limit live.new result }
{
    if limit <= bound::tighten(matrix, live, undecided, limit) {
        return None;
    }
    branching::branching_row(&Subproblem {
        matrix,
        live,
        undecided,
    })
}

// The lightest cover of the undecided columns by live rows, if it is below the limit: what is left is reduced and bounded, and then a row is chosen.
#[cycle(choose_reduce)]
#[tactic(auto, using(matrix::proofs::Without::size_fewer, crate::proofs::Branches::found_spent, crate::proofs::Branches::found_decided, crate::proofs::Branches::found_chosen))]
fn reduce(problem: &Subproblem, limit: u64) -> Solution
    requires { limit < cost_limit }
    ensures { let p = problem.now in Found p.matrix.words.now p.matrix.weights.now p.live.now p.undecided limit result.cover }
{
    let mut rest = reduction::cyclic_core(problem);
    if limit <= rest.cost {
        return leaf(None);
    }
    if rest.undecided.is_empty() {
        return leaf(Some(Cover {
            weight: rest.cost,
            rows: rest.taken,
        }));
    }
    let undecided = rest.undecided;
    let below = limit - rest.cost;
    match branch_point(problem.matrix, &mut rest.live, undecided, below) {
        None => leaf(None),
        Some(r) => {
            let found = choose(&rest.left(problem.matrix), below, r);
            with_taken(&rest, found)
        }
    }
}

// The same by the two branches of a live row r: the lightest cover with it, and one without it if that is lighter still. In both, the row is no longer live.
#[cycle(choose_reduce)]
#[tactic(auto, using(matrix::proofs::Without::left_size, crate::proofs::Branches::lower_limit, crate::proofs::Branches::found_branches))]
fn choose(problem: &Subproblem, limit: u64, r: usize) -> Solution
    requires { (limit < cost_limit) × (r < row_count problem.now.matrix.words.now) × Member problem.now.live.now r }
    ensures { let p = problem.now in Found p.matrix.words.now p.matrix.weights.now p.live.now p.undecided limit result.cover }
{
    let mut live = *problem.live;
    live.remove(r);
    let without = Subproblem {
        live: &live,
        ..*problem
    };
    let with = Subproblem {
        undecided: problem.undecided - problem.matrix.columns_of(r),
        ..without
    };
    let w = problem.matrix.weight(r);
    let found = reduce(&with, limit.saturating_sub(w));
    let incumbent = taking(found, r, w);
    let other = reduce(&without, limit_with(&incumbent.cover, limit));
    lighter(incumbent, other)
}

// The lightest cover of the columns, if each of them has a row.
#[tactic(auto, using(crate::proofs::Branches::coverable, crate::proofs::Branches::whole, crate::proofs::Branches::found_lighter))]
pub fn minimum_cover(matrix: Matrix, columns: columns::Set) -> Solution
    ensures found { IsSome result.cover ↔ Coverable matrix.entry.words.now columns }
    ensures minimum { IfSome result.cover (λ c. MinimumCover matrix.entry.words.now matrix.entry.weights.now columns c.weight c.rows) }
{
    let all = rows::Set::below(matrix.rows());
    let problem = Subproblem {
        matrix,
        live: &all,
        undecided: columns,
    };
    let first = Solution {
        cover: greedy::cover_below(&problem, FIRST_LIMIT),
        nodes: 0,
        depth: 0,
    };
    let found = reduce(&problem, limit_with(&first.cover, FIRST_LIMIT));
    lighter(first, found)
}

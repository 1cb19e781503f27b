// Column dominance: a column is dropped when another column's rows all cover it too. Of equal columns one stays.
ghost use Rattle.std.specs.Prelude.{List, ℕ, ◌≤◌};
ghost use Rattle.matrix.specs.Sets.{row_limit};
ghost use Rattle.matrix.specs.Matrix.{row_count};
ghost use Rattle.reduction.specs.Reduction.{Keeps};
ghost use Rattle.reduction.specs.Steps.{Along, Narrowed};

use matrix::{columns, rows};

// A set of columns for each column: its companions, which come along with it.
type Companions = [columns::Set; columns::LIMIT];

// What every row so far covers together with a column, cut down by one more row, which covers the columns `row`.
fn narrow(along: &mut Companions, row: columns::Set, undecided: columns::Set)
    ensures { Narrowed along.old row undecided along.new }
{
    let set = row & undecided;
    for c in set {
        along[c] &= row;
    }
}

// For each undecided column, the columns that every live row covering it covers too.
fn come_along(words: &[columns::Set], live: &rows::Set, undecided: columns::Set) -> Companions
    requires { row_count words.now ≤ row_limit }
    ensures { Along words.now live.now undecided (row_count words.now) result }
{
    let mut along = [columns::ALL; columns::LIMIT];
    for i in live.iter(matrix::row_count(words)) {
        narrow(&mut along, matrix::covered(words, i), undecided);
    }
    along
}

// The undecided columns without those that another one brings along. No weight is asked for, so it takes the words and no `Matrix`.
pub fn drop_columns(
    words: &[columns::Set],
    live: &rows::Set,
    undecided: columns::Set,
) -> columns::Set
    requires { row_count words.now ≤ row_limit }
    ensures { (weights : List ℕ) → Keeps words.now weights live.now undecided live.now result }
{
    let along = come_along(words, live, undecided);
    let mut kept = undecided;
    for d in undecided {
        if kept.contains(d) {
            kept -= along[d] - columns::Set::only(d);
        }
    }
    kept
}

// The matrix by columns: the live rows that cover each undecided column. It is a hint that makes loops shorter. Nothing is promised of which rows it
// has, and whoever uses it checks what it finds.
ghost use Rattle.std.specs.Prelude.{◌≡◌, ◌<◌, ◌≤◌};
ghost use Rattle.matrix.specs.Sets.{column_limit, row_limit};
ghost use Rattle.matrix.specs.Matrix.{row_count};

use crate::{Subproblem, columns, rows};

// A set of rows for each column.
#[derive(Clone, Copy, Debug, Default, PartialEq, Eq, PartialOrd, Ord, Hash)]
pub struct ByColumn {
    sets: [rows::Set; columns::LIMIT],
}

impl ByColumn {
    ghost use Rattle.matrix.specs.Transposed.{noted};

    // The live rows noted at their undecided columns. It takes no weights, and so no `Matrix`.
    pub fn of(words: &[columns::Set], live: &rows::Set, undecided: columns::Set) -> ByColumn
        requires { row_count words.now ≤ row_limit }
    {
        let mut sets = [rows::Set::none(); columns::LIMIT];
        for i in live.iter(crate::row_count(words)) {
            for c in crate::covered(words, i) & undecided {
                sets[c].insert(i);
            }
        }
        ByColumn { sets }
    }

    // The rows noted at the column c, which is asked to be one of a set's.
    pub fn at(&self, c: usize) -> &rows::Set
        requires { c < column_limit }
        ensures { result.now ≡ noted self.now c }
    {
        &self.sets[c]
    }
}

// What is left of a matrix, with its rows by column.
#[derive(Clone, Copy)]
pub struct Indexed<'a> {
    pub problem: Subproblem<'a>,
    pub by_column: &'a ByColumn,
}

impl<'a> Indexed<'a> {
    ghost use Rattle.std.specs.Iterator.Runs.{EachRunFrom};
    ghost use Rattle.numbers.specs.Ascending.{GivesBelow};
    ghost use Rattle.matrix.specs.Walks.{rows_end, rows_left, YieldsRows};
    ghost use Rattle.matrix.specs.Transposed.{noted};

    // The rows noted at the column c.
    pub fn rows_at(&self, c: usize) -> &'a rows::Set
        requires { c < column_limit }
        ensures { result.now ≡ noted self.now.by_column.now c }
    {
        self.by_column.at(c)
    }

    // The same rows, one after the other, ascending.
    #[inline]
    #[tactic(auto, using(numbers::proofs::Loops::runs_below))]
    pub fn rows_of(&self, c: usize) -> rows::Rows<'a>
        requires { c < column_limit }
        ensures end { rows_end result ≡ row_count self.now.problem.matrix.words.now }
        ensures runs { EachRunFrom YieldsRows result (GivesBelow (row_count self.now.problem.matrix.words.now) (rows_left result)) }
    {
        self.rows_at(c).iter(self.problem.matrix.rows())
    }
}

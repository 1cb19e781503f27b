// The grammar of the input, a byte at a time. However long the run is, a reader keeps at most the cells of the widest table and one more.
//
//     let mut reader = Reader::new();
//     reader.feed(b"2\n01");
//     reader.feed(b"11\n");
//     reader.text()?      // width 2 and the cells 0 1 1 1
//
// Nothing is refused before the text ends.
ghost use Rattle.std.specs.Prelude.{◌≡◌, MatchOption, false, true, [], ◌∷◌, ◌++◌};
ghost use Rattle.text.specs.Input.{cell_of, is_cell, is_digit, width_of};
ghost use Rattle.text.specs.Steps.{keep};

use arrayvec::ArrayVec;
use cube::Refusal;
use spelling::MOST_CODES;
use std::marker::Model;

// One cell more than the widest table has.
pub const MOST_CELLS: usize = MOST_CODES + 1;

// What comes next in a text in form.
#[derive(Clone, Copy)]
pub enum Next {
    // The width.
    Width,
    // The line feed behind this width.
    LineFeed(usize),
    // A cell of a table of this width, or the last line feed.
    Cell(usize),
    // The end.
    End(usize),
}

// The width that a digit says.
fn width_of(byte: u8) -> Option<usize>
    ensures { MatchOption result (is_digit byte ≡ false) (λ n. (is_digit byte ≡ true) × (n ≡ width_of byte)) }
{
    match byte {
        b'0'..=b'9' => Some(usize::from(byte - b'0')),
        _ => None,
    }
}

// The cell of a character.
fn cell_of(byte: u8) -> Option<u8>
    ensures { MatchOption result (is_cell byte ≡ false) (λ c. (is_cell byte ≡ true) × (c ≡ cell_of byte)) }
{
    match byte {
        b'0' => Some(0),
        b'1' => Some(1),
        b'-' => Some(2),
        _ => None,
    }
}

// The cells of a run that are kept.
type Cells = ArrayVec<u8, MOST_CELLS>;

// Keeps a cell where there is room for one more.
#[tactic(auto, using(crate::proofs::Keeping::one_kept, crate::proofs::Keeping::none_kept))]
fn keep(cells: &mut Cells, cell: u8)
    ensures { cells.new.items ≡ keep (cells.old.items ++ cell ∷ []) }
{
    let _ = cells.try_push(cell);
}

impl Next {
    ghost use Rattle.std.specs.Prelude.{◌≡◌, Some};
    ghost use Rattle.text.specs.Steps.{stepped};
    ghost use Rattle.text.specs.Readers.{state_of, Kept};

    // What comes behind this byte. A cell is kept where there is room.
    fn behind(self, byte: u8, cells: &mut Cells) -> Option<Self>
        requires { Kept (Some self) cells.old.items }
        ensures state { state_of result cells.new.items ≡ stepped (state_of (Some self) cells.old.items) byte }
        ensures kept { Kept result cells.new.items }
    {
        match self {
            Next::Width => width_of(byte).map(Next::LineFeed),
            Next::LineFeed(n) if byte == b'\n' => Some(Next::Cell(n)),
            Next::Cell(n) if byte == b'\n' => Some(Next::End(n)),
            Next::Cell(n) => {
                keep(cells, cell_of(byte)?);
                Some(Next::Cell(n))
            }
            Next::LineFeed(_) | Next::End(_) => None,
        }
    }
}

// What a text says: a width, and the cells that are kept.
#[derive(Clone, Copy)]
pub struct Text<'a> {
    pub width: usize,
    pub cells: &'a [u8],
}

// A text that is being read.
#[derive(Drop)]
pub struct Reader {
    // None behind a byte that no text in form has there.
    next: Option<Next>,
    // No cell before the run.
    cells: Cells,
}

impl Model for Reader {
    ghost use Rattle.std.specs.Prelude.{◌≡◌};
    ghost use Rattle.text.specs.Steps.{State};

    ghost Value = { State };

    ghost use Rattle.text.specs.Readers.{state_of, Kept};

    ghost view = { λ r. state_of r.next r.cells.items };

    ghost invariant = { λ r. Kept r.next r.cells.items };
}

impl Reader {
    ghost use Rattle.std.specs.Prelude.{◌≡◌, ◌≤◌, IfOk, MatchResult, length};
    ghost use Rattle.cube.specs.Calls.{refusal_number, refuses, gives};
    ghost use Rattle.text.specs.Steps.{State, at_start, wrong, stepped, fed, closed, cells_kept, most_cells};
    ghost use Rattle.text.specs.Readers.{state_of};

    // Nothing has been read yet.
    pub fn new() -> Self
        ensures { result ≡ at_start }
    {
        Reader {
            next: Some(Next::Width),
            cells: ArrayVec::new(),
        }
    }

    // A reader that has come to where this comes next, with these cells of the run, or to a text that is not in form.
    pub fn from_parts(next: Option<Next>, cells: &[u8]) -> Self
        requires { length cells.now ≤ most_cells }
        ensures { result ≡ state_of next cells.now }
    {
        let mut kept = ArrayVec::new();
        if let Some(Next::Cell(_) | Next::End(_)) = next {
            let _ = kept.try_extend_from_slice(cells);
        }
        Reader { next, cells: kept }
    }

    // What comes next, None where the text is not in form whatever follows, and the cells that are kept.
    pub fn parts(&self) -> (Option<Next>, &[u8])
        ensures state { self.now ≡ state_of result.0 result.1.now }
        ensures few { length result.1.now ≤ most_cells }
    {
        (self.next, &self.cells)
    }

    // The next byte.
    #[tactic(auto, using(crate::proofs::Keeping::stepped_few))]
    pub fn step(&mut self, byte: u8)
        ensures state { self.new ≡ stepped self.old byte }
        ensures few { cells_kept self.old ≤ most_cells → cells_kept self.new ≤ most_cells }
    {
        if let Some(next) = self.next {
            self.next = next.behind(byte, &mut self.cells);
        }
    }

    // The bytes of a piece, one after the other.
    #[tactic(auto, using(crate::proofs::Stepping::fed_append, crate::proofs::Keeping::fed_few, numbers::proofs::Fronts::take_more), unfolding(crate::specs::Steps::fed))]
    pub fn feed(&mut self, piece: &[u8])
        ensures state { self.new ≡ fed self.old piece.now }
        ensures few { cells_kept self.old ≤ most_cells → cells_kept self.new ≤ most_cells }
    {
        for byte in piece {
            self.step(*byte);
        }
    }

    // The text cannot be read: it is not in form.
    pub fn fail(&mut self)
        ensures { self.new ≡ wrong }
    {
        self.next = None;
    }

    // What the text says, where it ends here.
    pub fn text(&self) -> Result<Text<'_>, Refusal>
        ensures text { MatchResult result (λ t. closed self.now ≡ gives (record { width = t.width; cells = t.cells.now }))
            (λ e. closed self.now ≡ refuses (refusal_number e)) }
        ensures few { IfOk result (λ t. length t.cells.now ≤ most_cells) }
    {
        match self.next {
            Some(Next::End(width)) => Ok(Text {
                width,
                cells: &self.cells,
            }),
            _ => Err(Refusal::Text),
        }
    }
}

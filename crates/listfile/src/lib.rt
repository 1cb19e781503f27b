// Write: the list file of a list of rows in two arrays. Read: the list of a list file. docs/LIST-FILE.md describes the file.
//
//     let mut file = [0u8; 6];
//     listfile::write(4, &[8, 9], &[8, 13], &mut file)         // Ok(6): 04 02 08 09 08 0d
//     let mut values = [0u8; 2];
//     let mut cares = [0u8; 2];
//     listfile::read(&file, &mut values, &mut cares)           // Ok: width 4, count 2; values 8 9, cares 8 13
#![tactic(auto, using(cube::proofs::Calls::refusals))]

ghost use Rattle.std.specs.Prelude.{◌≡◌, ◌+◌, ◌≤◌, [], ◌∷◌, length, IfOk};
ghost use Rattle.std.proofs.lemmas.List.Edits.{sets};
ghost use Rattle.cube.specs.Calls.{most_rows, when, first_of, refusal_of};
ghost use Rattle.listfile.specs.File.{one_byte_count, file_of, width_in, values_in, cares_in};
ghost use Rattle.listfile.specs.Write.{Writes};
ghost use Rattle.listfile.specs.Read.{wrong_length, Reads};
ghost use Rattle.listfile.specs.Steps.{Writable};

use cube::Refusal;
use lists::Rows;

// The bytes before the values.
const HEADER_LEN: usize = 2;

// What stands before the values of a list file: its width and its row count.
#[derive(Clone, Copy, PartialEq, Eq)]
pub struct Header {
    pub width: usize,
    pub count: usize,
}

// A list file taken apart: its width and its rows, as many as its row count says.
#[derive(Clone, Copy)]
struct ListFile<'a> {
    width: usize,
    rows: Rows<'a>,
}

// Writes the file: width and row count, the values right after them, and the cares right after the values.
fn put_file(n: usize, rows: Rows, out: &mut [u8])
    requires { Writable n rows.values.now out.old }
    ensures { out.new ≡ sets out.old 0 (file_of one_byte_count n rows.entry.values.now rows.entry.cares.now) }
{
    let count = rows.len();
    let behind = HEADER_LEN + count;
    out[..HEADER_LEN].copy_from_slice(&[n as u8, count as u8]);
    out[HEADER_LEN..behind].copy_from_slice(rows.values);
    out[behind..behind + count].copy_from_slice(rows.cares);
}

// Writes the list file of a list into the first bytes of a buffer. Answers its length, or why it refuses.
#[tactic(auto, using(cube::proofs::Calls::refusals, cube::proofs::Calls::listed_refused, cube::proofs::Lists::rows_length))]
pub fn write(n: usize, values: &[u8], cares: &[u8], out: &mut [u8]) -> Result<usize, Refusal>
    ensures { Writes one_byte_count n values.now cares.now out.old out.new result }
{
    spelling::check_width(n)?;
    let rows = Rows::formed(n, values, cares)?;
    let length = HEADER_LEN + 2 * values.len();
    if out.len() < length {
        return Err(Refusal::ShortOutput);
    }
    put_file(n, rows, out);
    Ok(length)
}

impl<'a> ListFile<'a> {
    // Takes a file apart: refused if it is shorter than its header, or not as long as its row count asks. The values are the part right
    // behind the header, and the cares the part right behind the values.
    fn new(file: &'a [u8]) -> Result<ListFile<'a>, Refusal>
        ensures refusal { refusal_of result ≡ first_of (when (wrong_length one_byte_count file.now) 10 ∷ []) }
        ensures width { IfOk result (λ f. f.width ≡ width_in file.now) }
        ensures count { IfOk result (λ f. length f.rows.values.now ≡ one_byte_count.count file.now) }
        ensures values { IfOk result (λ f. f.rows.values.now ≡ values_in one_byte_count file.now) }
        ensures cares { IfOk result (λ f. f.rows.cares.now ≡ cares_in one_byte_count file.now) }
        ensures few { IfOk result (λ f. length f.rows.values.now ≤ most_rows) }
    {
        let [width, count, rest @ ..] = file else {
            return Err(Refusal::FileLength);
        };
        let count = usize::from(*count);
        if rest.len() != 2 * count {
            return Err(Refusal::FileLength);
        }
        let (values, cares) = rest.split_at(count);
        Ok(ListFile {
            width: usize::from(*width),
            rows: Rows { values, cares },
        })
    }
}

// Reads a list file into the first places of both arrays. Answers width and count, or why it refuses.
pub fn read(file: &[u8], values: &mut [u8], cares: &mut [u8]) -> Result<Header, Refusal>
    ensures { Reads one_byte_count file.now values.old cares.old values.new cares.new result }
{
    let ListFile { width, rows } = ListFile::new(file)?;
    spelling::check_width(width)?;
    rows.check_formed(width)?;
    let count = rows.len();
    if values.len() < count || cares.len() < count {
        return Err(Refusal::ShortOutput);
    }
    values[..count].copy_from_slice(rows.values);
    cares[..count].copy_from_slice(rows.cares);
    Ok(Header { width, count })
}

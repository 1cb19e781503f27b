// The search for C: `uint64_t minimum_cover(const uint64_t *words, size_t rows, const uint32_t *weights, size_t weights_len, uint64_t columns, uint64_t *effort)`.
// Where each column has a row, it answers the weight of a minimum cover, and else 2 ^ 42. Where there are more than 768 rows or not as many weights, it refuses
// with 2 ^ 64 - 1 and leaves `effort` alone. Otherwise the nodes visited and the depth of the calls go into the two places of `effort`: nothing is proved of them.
#![tactic(auto)]

ghost use Rattle.search_c.specs.Exported.{Exported};

use matrix::{Matrix, columns, rows};

// The answer to sizes that do not fit. It and the answer where some column has no row, which is the first limit of the search, are numbers, since C has no
// other answer.
const REFUSED: u64 = u64::MAX;

// The weight of a minimum cover, and what the search took.
#[unsafe(no_mangle)]
pub extern "C" fn minimum_cover(
    words: &[columns::Set],
    weights: &[u32],
    columns: u64,
    effort: &mut [u64; 2],
) -> u64
    ensures { Exported words.now weights.now columns effort.old result effort.new }
{
    if rows::LIMIT < words.len() || weights.len() != words.len() {
        return REFUSED;
    }
    let answer = search::minimum_cover(Matrix { words, weights }, columns::Set::from(columns));
    effort[0] = answer.nodes;
    effort[1] = answer.depth;
    match answer.cover {
        Some(cover) => cover.weight,
        None => search::FIRST_LIMIT,
    }
}

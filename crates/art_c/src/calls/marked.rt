//! The pairs whose keys begin a query, where each key ends with a mark.
ghost use Rattle.art_c.specs.Layouts.{words_pair};
ghost use Rattle.art_c.specs.Marked.{AreMarkedTold, marked_pairs};
ghost use Rattle.art_c.specs.Walks.{AreTold};

use crate::calls::walks::words_code;
use crate::code::Code;
use crate::handle::Map;
use crate::value::{Value, WordsPair};
use art_bytes::{AsBytes, SliceKey};

/// Tells the pairs whose keys are some bytes of a query, from its first, and the mark, while there is a place: the
/// longest first. Each is found by one way down, in what the one before it leaves of the query. Tells their number, and
/// whether another is left.
fn marked_out(map: &Map<u64>, query: &[u8], mark: u8, pairs: &mut [WordsPair]) -> (usize, bool)
    ensures { AreTold (λ p. words_pair p.0 p.1) (marked_pairs query.now mark map.now.pairs) pairs.old
        result.0 result.1 pairs.new }
{
    let (mut left, mut count) = (query, 0);
    while let Some((key, word)) = map.marked_get_key_value(&SliceKey(left), mark) {
        if count == pairs.len() {
            return (count, true);
        }
        let key_bytes = key.as_bytes();
        pairs[count] = word.item(key_bytes);
        count += 1;
        match key_bytes.len().checked_sub(2) {
            Some(shorter) => left = &left[..shorter],
            None => return (count, false),
        }
    }
    (count, false)
}

pub(crate) fn prefixes(
    map: &Map<u64>,
    query: &[u8],
    mark: u8,
    pairs: &mut [WordsPair],
    count: &mut usize,
) -> Code
    ensures { AreMarkedTold query.now mark map.now.pairs (pairs.old, count.old) result (pairs.new, count.new) }
{
    let (told, is_more) = marked_out(map, query, mark, pairs);
    *count = told;
    words_code(told, is_more)
}

//! The words of many keys.
ghost use Rattle.std.specs.Prelude.{◌≡◌};
ghost use Rattle.art_c.specs.Calls.{stored_value};
ghost use Rattle.art_c.specs.Copies.{word_out};
ghost use Rattle.art_c.specs.Gets.{found_flag, IsManyGot};

use crate::code::Code;
use crate::handle::Map;
use crate::value::WordsPair;
use art_bytes::SliceKey;

/// The word of a key and 1, or this word and 0 if no pair has the key.
fn word_or(map: &Map<u64>, key: &[u8], word: u64) -> (u64, u8)
    ensures { result ≡ (
      word_out (stored_value key.now map.now.pairs) word,
      found_flag (stored_value key.now map.now.pairs),
    ) }
{
    match map.get(&SliceKey(key)) {
        Some(is) => (*is, 1),
        None => (word, 0),
    }
}

/// Looks keys up, which stand end to end, up to the first that the bytes end before or that has no flag.
pub(crate) fn get_many(
    map: &Map<u64>,
    keys: &[u8],
    pairs: &mut [WordsPair],
    found: &mut [u8],
    looked_up: &mut usize,
) -> Code
    ensures { IsManyGot keys.now map.now.pairs ((pairs.old, found.old), looked_up.old)
        result ((pairs.new, found.new), looked_up.new) }
{
    let mut rest = keys;
    for at in 0..pairs.len() {
        *looked_up = at;
        if at == found.len() {
            return Code::NoRoom;
        }
        let pair = pairs[at];
        let Some((key, following)) = rest.split_at_checked(pair.key_len) else {
            return Code::CutOff;
        };
        let (word, flag) = word_or(map, key, pair.word);
        pairs[at] = WordsPair {
            key_len: pair.key_len,
            word,
        };
        found[at] = flag;
        rest = following;
    }
    *looked_up = pairs.len();
    Code::Done
}

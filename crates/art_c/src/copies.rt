//! How a pair or a value is copied out to a caller.
ghost use Rattle.std.specs.Prelude.{◌≡◌, ◌≤◌, length, option_map};
ghost use Rattle.std.specs.Option.{option_copied};
ghost use Rattle.std.specs.Map.Iter.{deref_pair};
ghost use Rattle.art_c.specs.Copies.{len_word_out, key_room, length_out, pair_code, pair_out, pairs_word_out, rooms};
ghost use Rattle.art_c.specs.Copies.{found_code, value_code, value_out, word_code, word_out, word_pair_out, written};

use crate::bytes::Bytes;
use crate::code::Code;
use art_bytes::AsBytes;

/// Copies the bytes to the start of a room, whose rest is left alone.
pub(crate) fn write(bytes: &[u8], room: &mut [u8])
    requires { length bytes.now ≤ length room.old }
    ensures { room.new ≡ written bytes.now room.old }
{
    let (front, _rest) = room.split_at_mut(bytes.len());
    front.copy_from_slice(bytes);
}

/// Copies a value out, if there is one and it goes into the room, and tells its length.
pub(crate) fn give_value(found: Option<&Bytes>, room: &mut [u8], len: &mut usize) -> Code
    ensures code { result ≡ value_code (option_copied found.entry) room.old }
    ensures room { room.new ≡ value_out (option_copied found.entry) room.old }
    ensures len { len.new ≡ length_out (option_copied found.entry) len.old }
{
    let Some(value) = found else {
        return Code::NotFound;
    };
    let bytes = value.as_bytes();
    *len = bytes.len();
    if bytes.len() <= room.len() {
        write(bytes, room);
        Code::Done
    } else {
        Code::NoRoom
    }
}

/// Tells a word, if there is one.
pub(crate) fn give_word(found: Option<&u64>, word: &mut u64) -> Code
    ensures code { result ≡ found_code (option_copied found.entry) }
    ensures word { word.new ≡ word_out (option_copied found.entry) word.old }
{
    match found {
        Some(is) => {
            *word = *is;
            Code::Done
        }
        None => Code::NotFound,
    }
}

/// Tells the word of a pair, if there is one.
pub(crate) fn give_pairs_word(found: Option<(&Bytes, &u64)>, word: &mut u64) -> Code
    ensures code { result ≡ found_code (option_map deref_pair found.entry) }
    ensures word { word.new ≡ pairs_word_out (option_map deref_pair found.entry) word.old }
{
    match found {
        Some((_key, is)) => {
            *word = *is;
            Code::Done
        }
        None => Code::NotFound,
    }
}

/// Tells how long the key of a pair is, and its word, if there is one.
pub(crate) fn give_len_word(
    found: Option<(&Bytes, &u64)>,
    key_len: &mut usize,
    word: &mut u64,
) -> Code
    ensures code { result ≡ found_code (option_map deref_pair found.entry) }
    ensures lent { (key_len.new, word.new) ≡ len_word_out (option_map deref_pair found.entry) (key_len.old, word.old) }
{
    match found {
        Some((key, is)) => {
            *key_len = key.as_bytes().len();
            *word = *is;
            Code::Done
        }
        None => Code::NotFound,
    }
}

/// Copies the key of a pair out, if there is one and it goes into the room, and tells its length and its word.
pub(crate) fn give_word_pair(
    found: Option<(&Bytes, &u64)>,
    room: &mut [u8],
    key_len: &mut usize,
    word: &mut u64,
) -> Code
    ensures code { result ≡ word_code (option_map deref_pair found.entry) room.old }
    ensures rooms { (key_room room.new key_len.new word.new)
        ≡ word_pair_out (option_map deref_pair found.entry) (key_room room.old key_len.old word.old) }
{
    let Some((key, is)) = found else {
        return Code::NotFound;
    };
    let key = key.as_bytes();
    *key_len = key.len();
    *word = *is;
    if key.len() <= room.len() {
        write(key, room);
        Code::Done
    } else {
        Code::NoRoom
    }
}

/// Copies a pair out, if there is one and both parts go into their rooms, and tells their lengths.
pub(crate) fn give_pair(
    found: Option<(&Bytes, &Bytes)>,
    key_room: &mut [u8],
    key_len: &mut usize,
    value_room: &mut [u8],
    value_len: &mut usize,
) -> Code
    ensures code { result ≡ pair_code (option_map deref_pair found.entry)
        (rooms key_room.old key_len.old value_room.old value_len.old) }
    ensures rooms { (rooms key_room.new key_len.new value_room.new value_len.new)
        ≡ pair_out (option_map deref_pair found.entry) (rooms key_room.old key_len.old value_room.old value_len.old) }
{
    let Some((key, value)) = found else {
        return Code::NotFound;
    };
    let (key, value) = (key.as_bytes(), value.as_bytes());
    *key_len = key.len();
    *value_len = value.len();
    if key.len() <= key_room.len() && value.len() <= value_room.len() {
        write(key, key_room);
        write(value, value_room);
        Code::Done
    } else {
        Code::NoRoom
    }
}

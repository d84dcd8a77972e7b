//! Many pairs in one buffer: the bytes of keys, and of values, end to end, and an item for each pair.
ghost use Rattle.std.specs.Prelude.{◌≡◌, ◌+◌, ◌≤◌, ◌++◌, length, take, drop};
ghost use Rattle.art_c.specs.Copies.{written};
ghost use Rattle.art_c.specs.Layouts.{with_first};

use crate::copies::write;

/// Copies both parts of a pair into a room, after so many bytes.
pub(crate) fn write_pair(key: &[u8], text: &[u8], at: usize, room: &mut [u8])
    requires { at + (length key.now + length text.now) ≤ length room.old }
    ensures { room.new ≡ take at room.old ++ written (key.now ++ text.now) (drop at room.old) }
{
    let (_front, following) = room.split_at_mut(at);
    let (key_room, rest) = following.split_at_mut(key.len());
    key_room.copy_from_slice(key);
    write(text, rest);
}

/// Tells an item in the first place, if there is one.
pub(crate) fn tell_first<T: Copy>(item: T, items: &mut [T])
    ensures { items.new ≡ with_first item items.old }
{
    if !items.is_empty() {
        items[0] = item;
    }
}

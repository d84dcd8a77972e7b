//! Callers that make room first and insert then: no insertion is out of memory, also where keys are stored already or
//! in conflict.
ghost use Rattle.std.specs.Prelude.{◌*◌, length, IsOk, OnErr};
ghost use Rattle.art_arena.specs.arena.Arena.{HasRoom};
ghost use Rattle.art_map.specs.Contents.{IsKept};

use art_bytes::SliceKey;
use art_map::TreeMap;
use std::alloc::AllocError;

/// Enters blocks with their owners, all or none, and answers how many were left out. A block that is known gets its new
/// owner. One that overlaps another is left out. It fails only where there is no memory for the room, before the first
/// block is entered.
pub fn enter_all<'a>(
    blocks: &mut TreeMap<SliceKey<'a>, u32, 16>,
    entries: &[(&'a [u8], u32)],
) -> Result<usize, AllocError>
    ensures succeeds { HasRoom blocks.old.nodes (2 * length entries.now) → IsOk result }
    ensures kept { OnErr result (IsKept blocks.old blocks.new) }
{
    blocks.reserve(entries.len())?;
    let mut left_out = 0usize;
    for entry in entries {
        let (front, owner) = *entry;
        match blocks.find_place(&SliceKey(front)) {
            Ok(place) => match blocks.insert_at(place, SliceKey(front), owner) {
                Ok(_) => {}
                Err(_) => unreachable!(),
            },
            Err(_) => left_out = left_out.saturating_add(1),
        }
    }
    Ok(left_out)
}

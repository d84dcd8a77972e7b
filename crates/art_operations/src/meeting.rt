//! How two lists of bytes meet.
ghost use Rattle.art_operations.specs.inner.Meetings.{Meets};

use art_nodes::count_agreeing;

/// Two bytes in which lists differ, after their longest common prefix.
#[derive(Clone, Copy, PartialEq, Eq, Debug)]
pub struct Parted {
    /// How many bytes the common prefix has.
    pub matched: usize,
    /// The byte of the stored list.
    pub old_byte: u8,
    /// The byte of the new list.
    pub new_byte: u8,
}

// How a stored list of bytes and a new one meet.
#[derive(Clone, Copy)]
pub(crate) enum Meeting {
    Same,
    OldEnds,
    NewEnds,
    Parts(Parted),
}

// Whether one list ends where the other goes on, or where they part.
pub(crate) fn meet(old: &[u8], new: &[u8]) -> Meeting
    ensures { Meets old.now new.now result }
{
    let matched = count_agreeing(old, new);
    if matched == old.len() {
        if matched == new.len() {
            return Meeting::Same;
        }
        return Meeting::OldEnds;
    }
    if matched == new.len() {
        return Meeting::NewEnds;
    }
    Meeting::Parts(Parted {
        matched,
        old_byte: old[matched],
        new_byte: new[matched],
    })
}

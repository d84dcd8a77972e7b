//! Callers of art_set, of which its README.md shows one.

use art_set::TreeSet;
use std::alloc::AllocError;

/// Notes a word, and answers whether it is new.
pub fn note(words: &mut TreeSet<[u8; 4], 16>, word: [u8; 4]) -> Result<bool, AllocError> {
    match words.insert(word) {
        Ok(is_new) => Ok(is_new),
        Err(_) => Err(AllocError),
    }
}

/// How many words two texts share, and how many comparisons that took.
pub fn shared(first: &TreeSet<[u8; 4], 16>, second: &TreeSet<[u8; 4], 16>) -> (usize, usize) {
    let mut common = first.intersection(second);
    let mut count = 0usize;
    while common.next().is_some() {
        count = count.saturating_add(1);
    }
    (count, common.comparisons())
}

/// Forgets the words that begin with a letter.
pub fn forget(words: &mut TreeSet<[u8; 4], 16>, letter: u8) -> Result<(), AllocError> {
    words.retain(|word| word[0] != letter)
}

//! Callers of art_map, of which its README.md shows one.

use art_bytes::{SliceKey, StrKey};
use art_map::{Entry, PrefixEntry, PrefixOccupiedKind, TreeMap, TryInsertError, TryKeyError};
use art_operations::InsertRefused;
use art_walks::{WellFormedChecker, bounds_are_valid};
use std::alloc::{AllocError, Global};
use std::ops::Bound;

/// A table of address blocks, of which none holds another: each goes by the front of its addresses.
pub fn block_of<'a>(
    blocks: &'a TreeMap<SliceKey<'_>, u32, 16>,
    address: &[u8; 4],
) -> Option<&'a u32> {
    blocks.prefix_get(address)
}

/// A table of routes, each with a zero byte after it, so that one may begin another: what the longest route leads to
/// that begins a path.
pub fn route_of<'a>(routes: &'a TreeMap<SliceKey<'_>, u32, 16>, path: &str) -> Option<&'a u32> {
    routes.marked_get(&StrKey(path), 0)
}

/// Gives a block to an owner, and takes from others what it overlaps: how many blocks that were.
pub fn reassign<'a>(
    blocks: &mut TreeMap<SliceKey<'a>, u32, 16>,
    front: &'a [u8],
    owner: u32,
) -> Result<usize, InsertRefused<SliceKey<'a>, u32>> {
    blocks.prefix_insert(SliceKey(front), owner)
}

/// The owner of a block, or where it has none this one, to whom it is given. What it overlaps is then taken from
/// others.
pub fn owner_of<'a>(
    blocks: &mut TreeMap<SliceKey<'a>, u32, 16>,
    front: &'a [u8],
    owner: u32,
) -> Result<u32, InsertRefused<SliceKey<'a>, u32>> {
    let known = blocks.prefix_entry(SliceKey(front)).or_insert(owner)?;
    Ok(*known)
}

/// Gives a block to an owner, unless it overlaps another: whether it was given. The place that is found for it is good
/// until the table changes.
pub fn assign_free<'a>(
    blocks: &mut TreeMap<SliceKey<'a>, u32, 16>,
    front: &'a [u8],
    owner: u32,
) -> Result<bool, InsertRefused<SliceKey<'a>, u32>> {
    match blocks.find_place(&SliceKey(front)) {
        Ok(place) => {
            blocks.insert_at(place, SliceKey(front), owner)?;
            Ok(true)
        }
        Err(_) => Ok(false),
    }
}

/// Counts a word of four bytes once more.
pub fn count(
    counts: &mut TreeMap<[u8; 4], u32, 16>,
    word: [u8; 4],
) -> Result<(), InsertRefused<[u8; 4], u32>> {
    if let Some(count) = counts.get_mut(&word) {
        *count = count.saturating_add(1);
        return Ok(());
    }
    counts.insert(word, 1)?;
    Ok(())
}

/// Counts a word of four bytes once more by its entry, and tells how often it was seen.
pub fn tally(
    counts: &mut TreeMap<[u8; 4], u32, 16>,
    word: [u8; 4],
) -> Result<u32, InsertRefused<[u8; 4], u32>> {
    let entry = counts
        .entry(word)
        .and_modify(|count| *count = count.saturating_add(1));
    let count = entry.or_insert(1)?;
    Ok(*count)
}

/// Counts the word that a text begins with once more, if it is known, and answers it.
pub fn count_front(counts: &mut TreeMap<[u8; 4], u32, 16>, text: &str) -> Option<[u8; 4]> {
    match counts.prefix_get_key_value_mut(&StrKey(text)) {
        Some(mut entry) => {
            let count = entry.get_mut();
            *count = count.saturating_add(1);
            Some(*entry.key())
        }
        None => None,
    }
}

/// Takes a word out, or where it is not counted yet counts it once: whether it is counted now.
pub fn toggle(counts: &mut TreeMap<[u8; 4], u32, 16>, word: [u8; 4]) -> Result<bool, AllocError> {
    match counts.entry(word) {
        Entry::Occupied(entry) => match entry.remove() {
            Ok(_) => Ok(false),
            Err(refused) => Err(refused),
        },
        Entry::Vacant(entry) => match entry.insert(1) {
            Ok(_) => Ok(true),
            Err(_) => Err(AllocError),
        },
    }
}

/// How often a word was seen.
pub fn count_of(counts: &TreeMap<[u8; 4], u32, 16>, word: &[u8; 4]) -> u32 {
    if counts.contains_key(word) {
        counts[word]
    } else {
        0
    }
}

/// The first word, the one that was seen most often, and the last.
pub fn outline(counts: &TreeMap<[u8; 4], u32, 16>) -> Option<[[u8; 4]; 3]> {
    let (first, count) = counts.first_key_value()?;
    let (last, _) = counts.last_key_value()?;
    let mut most = (first, count);
    for pair in counts {
        if *pair.1 > *most.1 {
            most = pair;
        }
    }
    Some([*first, *most.0, *last])
}

/// How many nodes the words take, if these are found to be a tree of them.
pub fn nodes_of(alloc: Global, counts: &TreeMap<[u8; 4], u32, 16>) -> Option<usize> {
    let (arena, root) = counts.nodes();
    match WellFormedChecker::check(alloc, arena, root, counts.len()) {
        Ok(stats) => Some(stats.total_nodes()),
        Err(_) => None,
    }
}

/// How far the counts of the first word and of the last are apart, if there are two.
pub fn spread(counts: &TreeMap<[u8; 4], u32, 16>) -> Option<u32> {
    let mut values = counts.values();
    let first = values.next()?;
    let last = values.next_back()?;
    Some(last.abs_diff(*first))
}

/// The counts of the words from one on, up to another that is left out, in sum.
pub fn count_between(counts: &TreeMap<[u8; 4], u32, 16>, first: &[u8; 4], end: &[u8; 4]) -> u32 {
    let [start, end] = [Bound::Included(first), Bound::Excluded(end)];
    if !bounds_are_valid(start, end) {
        return 0;
    }
    let mut sum = 0u32;
    for (_, count) in counts.range(start, end) {
        sum = sum.saturating_add(*count);
    }
    sum
}

/// Raises the counts of the words from one on, up to another that is left out: how many those were.
pub fn raise_between(
    counts: &mut TreeMap<[u8; 4], u32, 16>,
    first: &[u8; 4],
    end: &[u8; 4],
) -> usize {
    let [start, end] = [Bound::Included(first), Bound::Excluded(end)];
    if !bounds_are_valid(start, end) {
        return 0;
    }
    let most = counts.len();
    let mut walk = counts.range_mut(start, end);
    for raised in 0..most {
        match walk.next() {
            Some(count) => *count = count.saturating_add(1),
            None => return raised,
        }
    }
    most
}

/// Counts the words that begin so from one again: how many those are.
pub fn restart(counts: &mut TreeMap<[u8; 4], u32, 16>, front: &[u8]) -> usize {
    let most = counts.len();
    let mut walk = counts.prefix_mut(&SliceKey(front));
    for restarted in 0..most {
        match walk.next() {
            Some(count) => *count = 1,
            None => return restarted,
        }
    }
    most
}

/// Weighs each word by its first letter.
pub fn weigh(counts: &mut TreeMap<[u8; 4], u32, 16>) {
    let mut walk = counts.iter_mut();
    for _ in 0..walk.len() {
        if walk.is_empty() {
            return;
        }
        let (word, count) = walk.next_pair();
        *count = count.saturating_mul(u32::from(word[0]));
    }
}

/// Counts the first word and the last once more.
pub fn count_ends(counts: &mut TreeMap<[u8; 4], u32, 16>) {
    let mut values = counts.values_mut();
    if let Some(count) = values.next() {
        *count = count.saturating_add(1);
    }
    if let Some(count) = values.next_back() {
        *count = count.saturating_add(1);
    }
}

/// The first block within a larger one, and the last.
pub fn blocks_within<'a>(
    blocks: &'a TreeMap<SliceKey<'_>, u32, 16>,
    front: &[u8],
) -> (Option<&'a u32>, Option<&'a u32>) {
    let query = SliceKey(front);
    let first = blocks.prefix(&query).next();
    let last = blocks.prefix(&query).next_back();
    (first.map(|pair| pair.1), last.map(|pair| pair.1))
}

/// Takes the first words out until so many are left.
pub fn keep_last(counts: &mut TreeMap<[u8; 4], u32, 16>, number: usize) -> Result<(), AllocError> {
    for _ in number..counts.len() {
        counts.pop_first()?;
    }
    Ok(())
}

/// Counts the words from one on down by one, and takes those out whose count is then none: how many those were.
pub fn count_down(
    counts: &mut TreeMap<[u8; 4], u32, 16>,
    first: &[u8; 4],
) -> Result<usize, AllocError> {
    let all = counts.len();
    let mut words = counts.extraction(Bound::Included(first), Bound::Unbounded);
    for _ in 0..all {
        let is_none = match words.front() {
            Some(count) => {
                *count = count.saturating_sub(1);
                *count == 0
            }
            None => false,
        };
        if words.is_empty() {
            break;
        }
        if is_none {
            words.take_front()?;
        } else {
            words.pass_front();
        }
    }
    Ok(all.saturating_sub(counts.len()))
}

/// Takes the last words out up to one that was seen so often: how many those were.
pub fn trim(counts: &mut TreeMap<[u8; 4], u32, 16>, least: u32) -> Result<usize, AllocError> {
    let all = counts.len();
    let mut words = counts.extraction::<[u8; 4]>(Bound::Unbounded, Bound::Unbounded);
    for trimmed in 0..all {
        let is_rare = match words.back_key_value() {
            Some((_, count)) => *count < least,
            None => false,
        };
        if words.is_empty() || !is_rare {
            return Ok(trimmed);
        }
        words.take_back()?;
    }
    Ok(all)
}

/// Forgets the words from one on, up to another that is left out, that were seen fewer times than this: how many.
pub fn forget_rare(
    counts: &mut TreeMap<[u8; 4], u32, 16>,
    first: &[u8; 4],
    end: &[u8; 4],
    least: u32,
) -> Result<usize, AllocError> {
    let [start, end] = [Bound::Included(first), Bound::Excluded(end)];
    if !bounds_are_valid(start, end) {
        return Ok(0);
    }
    let mut forgotten = 0usize;
    for pair in counts.extract_if(start, end, |_, count| *count < least) {
        let _pair = pair?;
        forgotten = forgotten.saturating_add(1);
    }
    Ok(forgotten)
}

/// Forgets the words that begin with these letters, in both tables or in neither: how many went.
pub fn forget_under_prefix(
    counts: &mut TreeMap<[u8; 4], u32, 16>,
    others: &mut TreeMap<[u8; 4], u32, 16>,
    letters: &[u8],
) -> Result<usize, AllocError> {
    let first = counts.prepare_remove_prefix(letters)?;
    let second = others.prepare_remove_prefix(letters)?;
    Ok(first.apply().pairs.saturating_add(second.apply().pairs))
}

/// Halves all counts, and forgets the words whose count is then none.
pub fn age(counts: &mut TreeMap<[u8; 4], u32, 16>) -> Result<(), AllocError> {
    counts.retain(|_, count| {
        *count /= 2;
        *count > 0
    })
}

/// The words and their counts in order, which leave the map one by one.
pub fn into_list(
    alloc: Global,
    counts: TreeMap<[u8; 4], u32, 16>,
) -> Result<Vec<([u8; 4], u32)>, AllocError> {
    let mut list = Vec::with_capacity(alloc, counts.len())?;
    for pair in counts {
        list.push(pair)?;
    }
    Ok(list)
}

/// The last word in order; the others are dropped.
pub fn last_word(counts: TreeMap<[u8; 4], u32, 16>) -> Option<[u8; 4]> {
    counts.into_keys().next_back()
}

/// How often the words were seen in all; they are dropped.
pub fn total(counts: TreeMap<[u8; 4], u32, 16>) -> u32 {
    let mut total = 0u32;
    let mut values = counts.into_values();
    for _ in 0..values.len() {
        if let Some(count) = values.next() {
            total = total.saturating_add(count);
        }
    }
    total
}

/// Claims a name, and answers whose it is then. A name that is a front of another, or that goes on after one, has no
/// owner.
pub fn claim(
    names: &mut TreeMap<Vec<u8>, u32, 16>,
    name: Vec<u8>,
    owner: u32,
) -> Result<Option<u32>, AllocError> {
    match names.try_entry(name) {
        Ok(entry) => match entry.or_insert_entry(owner) {
            Ok(entry) => Ok(Some(*entry.get())),
            Err(_) => Err(AllocError),
        },
        Err(TryKeyError::Prefix { .. }) => Ok(None),
        Err(TryKeyError::Memory { .. }) => Err(AllocError),
    }
}

/// Gives all names that a name overlaps to an owner: how many those are.
pub fn hand_over(names: &mut TreeMap<Vec<u8>, u32, 16>, name: Vec<u8>, owner: u32) -> usize {
    let most = names.len();
    match names.prefix_entry(name) {
        PrefixEntry::Occupied(entry) => match entry.kind() {
            PrefixOccupiedKind::Leaf(mut entry) => {
                *entry.get_mut() = owner;
                1
            }
            PrefixOccupiedKind::Inner(mut entry) => {
                let mut walk = entry.iter_mut();
                for given in 0..most {
                    match walk.next() {
                        Some(known) => *known = owner,
                        None => return given,
                    }
                }
                most
            }
        },
        PrefixEntry::Vacant(_) => 0,
    }
}

/// A film is stored, seen, and taken out again.
pub fn films(films: &mut TreeMap<StrKey<'_>, u32, 16>) -> Result<bool, AllocError> {
    match films.try_insert(StrKey("Office Space"), 4) {
        Ok(None) => {}
        Ok(Some(_)) => return Ok(false),
        Err(TryInsertError::Prefix { .. }) => return Ok(false),
        Err(TryInsertError::Memory { .. }) => return Err(AllocError),
    }
    let seen = films.get(&StrKey("Office Space")) == Some(&4);
    let taken = films.remove(&StrKey("Office Space"))?;
    Ok(seen && taken == Some(4) && films.is_empty())
}

/// Parts a table at a word, and puts the counts of another in what is left, which win: how many counts went.
pub fn replace_from(
    counts: &mut TreeMap<[u8; 4], u32, 16>,
    word: &[u8; 4],
    newer: &mut TreeMap<[u8; 4], u32, 16>,
) -> Result<usize, AllocError> {
    let old = counts.split_off(word)?;
    counts.append(newer)?;
    Ok(old.len())
}

//! An inverted index: for each word the numbers of the notes that it stands in. It is a map whose values are sets. A
//! word has an end mark after it, a zero, so that no word is a front of another, and `entry` refuses none.
#![tactic(auto)]

ghost use Rattle.std.specs.Prelude.{◌≡◌, List, ℕ, bytes_eq, if◌then◌else◌, OnOk, OnErr};
ghost use Rattle.art_set.specs.Members.{is_member, with_key_put};
ghost use Rattle.use_inverted_index.specs.Notes.{number_bytes, numbers_of};

use art_bytes::{ZeroEnded, ZeroEndedError};
use art_map::TreeMap;
use art_set::TreeSet;
use std::alloc::{AllocError, Global};
use std::io;

/// The number of a note as a key: four bytes, the highest first, whose order is that of the numbers.
type Number = [u8; 4];

/// For each word the notes that it stands in.
type Index = TreeMap<ZeroEnded, TreeSet<Number, 16>, 16>;

/// Notes that a word stands in a note, and answers whether that was new. The word is found there from then on, and each
/// other word where it was found before. Where there is no memory, each word is found where it was.
fn note(
    alloc: Global,
    index: &mut Index,
    word: ZeroEnded,
    number: Number,
) -> Result<bool, AllocError>
    ensures found { OnOk result ((other : List ℕ) → numbers_of other index.new.pairs
        ≡ (if bytes_eq word other then with_key_put number_bytes number (numbers_of word index.old.pairs)
        else numbers_of other index.old.pairs)) }
    ensures err { OnErr result ((other : List ℕ) → numbers_of other index.new.pairs
        ≡ numbers_of other index.old.pairs) }
{
    let numbers = match index.entry(word).or_insert(TreeSet::new(alloc)) {
        Ok(numbers) => numbers,
        Err(_) => return Err(AllocError),
    };
    let new = match numbers.insert(number) {
        Ok(new) => new,
        Err(_) => return Err(AllocError),
    };
    Ok(new)
}

/// Whether a word stands in a note.
fn stands_in(index: &Index, word: &ZeroEnded, number: &Number) -> bool
    ensures { result ≡ is_member number_bytes number.now (numbers_of word.now index.now.pairs) }
{
    match index.get(word) {
        Some(numbers) => numbers.contains(number),
        None => false,
    }
}

/// A word as a key: its bytes with a zero after them, unless one of them is a zero.
fn word_of(alloc: Global, text: &str) -> Result<Option<ZeroEnded>, AllocError> {
    match ZeroEnded::new(Vec::from_slice(alloc, text.as_bytes())?) {
        Ok(word) => Ok(Some(word)),
        Err(ZeroEndedError::HoldsZero(_)) => Ok(None),
        Err(ZeroEndedError::Memory(_)) => Err(AllocError),
    }
}

/// The numbers of the notes that a word stands in, as text.
fn numbers_text(alloc: Global, numbers: &TreeSet<Number, 16>) -> Result<String, AllocError> {
    let mut text = String::new(alloc);
    for number in numbers {
        let number = u32::from_be_bytes(*number);
        text.push_str(format!(in alloc; " {number}")?.as_str())?;
    }
    Ok(text)
}

/// Carries out a line `note NUMBER WORD ..` or `find WORD ..`, and gives its answer.
fn answer(alloc: Global, index: &mut Index, line: &str) -> Result<String, AllocError> {
    let mut words = line.split_whitespace();
    match words.next() {
        Some("note") => {
            let Some(number) = words.next().and_then(|text| text.parse::<u32>().ok()) else {
                return format!(in alloc; " not understood");
            };
            let mut new = 0usize;
            for text in words {
                if let Some(word) = word_of(alloc, text)?
                    && note(alloc, index, word, number.to_be_bytes())?
                {
                    new = new.saturating_add(1);
                }
            }
            format!(in alloc; " {new} words")
        }
        Some("find") => {
            let Some(word) = words.next() else {
                return format!(in alloc; " not understood");
            };
            let Some(word) = word_of(alloc, word)? else {
                return format!(in alloc; " not understood");
            };
            match index.get(&word) {
                Some(numbers) => numbers_text(alloc, numbers),
                None => format!(in alloc; " nowhere"),
            }
        }
        _ => format!(in alloc; " not understood"),
    }
}

/// Answers each line.
fn answer_lines(rt: &HostRuntime, index: &mut Index) -> io::Result<()> {
    for line in rt.lines(rt.alloc()) {
        let line = line?;
        let told = answer(rt.alloc(), index, line.as_str())?;
        println!(rt; "{line}:{told}")?;
    }
    Ok(())
}

/// Lists all words, each with its numbers.
fn list_words(rt: &HostRuntime, index: &Index) -> io::Result<()> {
    for (word, numbers) in index.iter() {
        let told = numbers_text(rt.alloc(), numbers)?;
        match str::from_utf8(word.to_bytes()) {
            Ok(word) => println!(rt; "{word}:{told}")?,
            Err(_) => println!(rt; "{word:?}:{told}")?,
        }
    }
    Ok(())
}

fn main(rt: HostRuntime) -> io::Result<()> {
    let mut index = TreeMap::new(rt.alloc());
    answer_lines(&rt, &mut index)?;
    list_words(&rt, &index)
}

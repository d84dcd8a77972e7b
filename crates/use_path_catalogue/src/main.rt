//! A catalogue of files by their paths. A directory and what stands in it are both entries: each path has an end mark
//! after it, a zero, and so no path is a front of another, and `insert` refuses none.
#![tactic(auto)]

ghost use Rattle.std.specs.Prelude.{◌≡◌, Some, None, List, ℕ, bytes_eq, if◌then◌else◌, IfOk, OnOk, OnErr};
ghost use Rattle.use_path_catalogue.specs.Catalogue.{size_at};

use art_bytes::{ZeroEnded, ZeroEndedError};
use art_map::TreeMap;
use std::alloc::{AllocError, Global};
use std::io;

/// The size of each file.
type Catalogue = TreeMap<ZeroEnded, u64, 16>;

/// The size of the file at a path, if there is one.
fn size_of(catalogue: &Catalogue, path: &ZeroEnded) -> Option<u64>
    ensures { result ≡ size_at path.now catalogue.now.pairs }
{
    catalogue.get(path).copied()
}

/// Files a size under a path, in the place of the one that was there: it is found from then on, and every other path
/// is answered as before.
fn file(catalogue: &mut Catalogue, path: ZeroEnded, size: u64) -> Result<Option<u64>, AllocError>
    ensures old { IfOk result (λ old. old ≡ size_at path catalogue.old.pairs) }
    ensures found { OnOk result ((other : List ℕ) → size_at other catalogue.new.pairs
        ≡ (if bytes_eq path other then Some size else size_at other catalogue.old.pairs)) }
    ensures err { OnErr result (catalogue.new.pairs ≡ catalogue.old.pairs) }
{
    match catalogue.insert(path, size) {
        Ok(old) => Ok(old),
        Err(_) => Err(AllocError),
    }
}

/// Takes the file at a path out: it is found no more, and every other path is answered as before.
fn forget(catalogue: &mut Catalogue, path: &ZeroEnded) -> Result<Option<u64>, AllocError>
    ensures old { IfOk result (λ old. old ≡ size_at path.now catalogue.old.pairs) }
    ensures gone { OnOk result ((other : List ℕ) → size_at other catalogue.new.pairs
        ≡ (if bytes_eq path.now other then None else size_at other catalogue.old.pairs)) }
    ensures err { OnErr result (catalogue.new.pairs ≡ catalogue.old.pairs) }
{
    catalogue.remove(path)
}

/// A path as a key: its bytes with a zero after them, unless one of them is a zero.
fn path_of(alloc: Global, text: &str) -> Result<Option<ZeroEnded>, AllocError> {
    match ZeroEnded::new(Vec::from_slice(alloc, text.as_bytes())?) {
        Ok(path) => Ok(Some(path)),
        Err(ZeroEndedError::HoldsZero(_)) => Ok(None),
        Err(ZeroEndedError::Memory(_)) => Err(AllocError),
    }
}

/// How a call answers with the size that it found.
fn size_text(alloc: Global, size: Option<u64>) -> Result<String, AllocError> {
    match size {
        Some(size) => format!(in alloc; "{size}"),
        None => format!(in alloc; "no such file"),
    }
}

/// Carries out a line `file PATH SIZE`, `size PATH` or `forget PATH`, and gives its answer.
fn answer(alloc: Global, catalogue: &mut Catalogue, line: &str) -> Result<String, AllocError> {
    let words: Vec<&str> = line.split_whitespace().collect(alloc)?;
    let (word, path) = match words.as_slice() {
        [word, path, ..] => (*word, path_of(alloc, path)?),
        _ => return format!(in alloc; "not understood"),
    };
    let size = match words.as_slice() {
        [_, _, size] => size.parse::<u64>().ok(),
        _ => None,
    };
    match (word, path, size) {
        ("file", Some(path), Some(size)) => match file(catalogue, path, size)? {
            Some(old) => format!(in alloc; "filed, was {old}"),
            None => format!(in alloc; "filed"),
        },
        ("size", Some(path), None) => size_text(alloc, size_of(catalogue, &path)),
        ("forget", Some(path), None) => size_text(alloc, forget(catalogue, &path)?),
        _ => format!(in alloc; "not understood"),
    }
}

/// Answers each line.
fn answer_lines(rt: &HostRuntime, catalogue: &mut Catalogue) -> io::Result<()> {
    for line in rt.lines(rt.alloc()) {
        let line = line?;
        let told = answer(rt.alloc(), catalogue, line.as_str())?;
        println!(rt; "{line}: {told}")?;
    }
    Ok(())
}

/// Lists the catalogue by path.
fn list(rt: &HostRuntime, catalogue: &Catalogue) -> io::Result<()> {
    for (path, size) in catalogue.iter() {
        match str::from_utf8(path.to_bytes()) {
            Ok(path) => println!(rt; "{path} {size}")?,
            Err(_) => println!(rt; "{path:?} {size}")?,
        }
    }
    Ok(())
}

fn main(rt: HostRuntime) -> io::Result<()> {
    let mut catalogue = TreeMap::new(rt.alloc());
    answer_lines(&rt, &mut catalogue)?;
    list(&rt, &catalogue)
}

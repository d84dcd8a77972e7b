//! Lists of commands on a tree, from no pair on.
ghost use Rattle.std.specs.Prelude.{◌≡◌, ℕ, suc, List, [], Some, IfOk};
ghost use Rattle.art_arena.specs.arena.Shapes.{key_of};
ghost use Rattle.art_operations.specs.Commands.{AreAnswered, clones_in, pairs_after, with_clone};
ghost use Rattle.art_operations.specs.KeyedLists.{IsBlocked};
ghost use Rattle.art_operations.specs.Overwrites.{removed_by};
ghost use Rattle.art_operations.specs.Pairs.{CanPut, HasPairs};
ghost use Rattle.art_operations.specs.Runs.{HoldsClonesOf, IsCloned};
ghost use Rattle.art_operations.specs.inner.Runs.{HasClones, IsExecuted, IsDone};

use crate::clone::clone_unchecked;
use crate::insert::point::InsertPoint;
use crate::pairs::{find_place, find_place_over, insert_at, insert_over, take_pair};
use crate::prefix_insert::result::PrefixInsertResult;
use art_arena::NodeArena;
use art_bytes::AsBytes;
use art_nodes::OpaqueNodePtr;
use std::alloc::{AllocError, Global};

/// What is done to the tree.
#[derive(Debug, Drop)]
pub enum Command<K, V> {
    /// Stores a value under a key, in place of the pair with that key if there is one.
    Insert(K, V),
    /// Stores a value under a key, in place of all pairs whose keys are the same, a prefix of it, or begin with it.
    PrefixInsert(K, V),
    /// Removes the pair with a key.
    Delete(K),
    /// Lets a clone of the tree take its place.
    Clone,
}

/// What a command returns.
#[derive(Clone, Copy, PartialEq, Eq, Debug)]
pub enum Answer {
    /// It was done, and replaced or removed so many pairs.
    Done(usize),
    /// Its key is a prefix of a stored key, or a stored key is a prefix of it. Nothing changed.
    Prefix,
    /// The command was out of memory. Nothing changed.
    Memory,
}

/// What a run leaves.
#[derive(Drop)]
pub struct RunResult<K, V, const PREFIX_LEN: usize> {
    /// The nodes of the tree.
    pub arena: NodeArena<K, V, PREFIX_LEN>,
    /// The root of the tree, if there is a pair.
    pub root: Option<OpaqueNodePtr>,
    /// The answers, one a command, in order.
    pub answers: Vec<Answer>,
}

// What a command answers, and the root after it.
#[derive(Clone, Copy)]
struct Change {
    root: Option<OpaqueNodePtr>,
    answer: Answer,
}

// A clone of a key and of a value. It is refused where one of the clones is.
fn cloned<K: Clone, V: Clone>(key: &K, value: &V) -> Result<(K, V), AllocError>
    ensures { IfOk result (λ pair. K.is_clone key.now pair.0 × V.is_clone value.now pair.1) }
{
    Ok((key.clone()?, value.clone()?))
}

// Stores a pair at the place that was found for its key.
fn insert_at_place<K: AsBytes + Drop, V: Drop, const PREFIX_LEN: usize>(
    arena: &mut NodeArena<K, V, PREFIX_LEN>,
    root: Option<OpaqueNodePtr>,
    place: Option<InsertPoint>,
    key: K,
    value: V,
) -> Change
    requires { (pairs : List (K × V)) × CanPut K.bytes PREFIX_LEN arena.old place (K.bytes key) pairs [] }
    ensures { (pairs : List (K × V)) → HasPairs K.bytes PREFIX_LEN arena.old root pairs
        → CanPut K.bytes PREFIX_LEN arena.old place (K.bytes key) pairs []
        → (IsBlocked (key_of K.bytes) (K.bytes key) pairs → ⊥)
        → IsDone K.bytes PREFIX_LEN arena.new pairs (Command.Insert key value) result }
{
    let put = match insert_at(arena, place, key, value) {
        Ok(put) => put,
        Err(_) => return Change {
            root,
            answer: Answer::Memory,
        },
    };
    let new_root = put.new_root;
    if put.existing_leaf.is_some() {
        return Change {
            root: Some(new_root),
            answer: Answer::Done(1),
        };
    }
    Change {
        root: Some(new_root),
        answer: Answer::Done(0),
    }
}

// Stores clones of a pair. A key that can't be put in is answered before anything is cloned.
fn insert<K: AsBytes + Clone, V: Clone, const PREFIX_LEN: usize>(
    arena: &mut NodeArena<K, V, PREFIX_LEN>,
    root: Option<OpaqueNodePtr>,
    key: &K,
    value: &V,
) -> Change
    requires keys { (k c : K) → K.is_clone k c → K.bytes c ≡ K.bytes k }
    requires pairs { (n : ℕ) × (pairs : List (K × V))
        × HasClones K.bytes PREFIX_LEN arena.old (IsCloned K.is_clone n) (IsCloned V.is_clone n) root pairs }
    ensures { (n : ℕ) (pairs : List (K × V))
        → HasClones K.bytes PREFIX_LEN arena.old (IsCloned K.is_clone n) (IsCloned V.is_clone n) root pairs
        → IsExecuted K.bytes PREFIX_LEN arena.new (IsCloned K.is_clone n) (IsCloned V.is_clone n) pairs
        (Command.Insert key.now value.now) result }
{
    // By value an option of a name counts as moved, so a copy goes in.
    let before = root;
    let place = match find_place(arena, before, key.as_bytes()) {
        Ok(place) => place,
        Err(_) => return Change {
            root,
            answer: Answer::Prefix,
        },
    };
    match cloned(key, value) {
        Ok((key, value)) => insert_at_place(arena, root, place, key, value),
        Err(_) => Change {
            root,
            answer: Answer::Memory,
        },
    }
}

// What a prefix insertion that was done leaves and answers.
fn change_of<K, V>(put: &PrefixInsertResult<K, V>) -> Change
    ensures { result ≡ record {
      root = Some put.now.insert_result.new_root;
      answer = Answer.Done (removed_by put.now);
    } }
{
    Change {
        root: Some(put.insert_result.new_root),
        answer: Answer::Done(put.pairs_removed()),
    }
}

// Stores a pair in the place of those whose keys overlap its key.
fn overwrite<K: AsBytes + Drop, V: Drop, const PREFIX_LEN: usize>(
    arena: &mut NodeArena<K, V, PREFIX_LEN>,
    root: Option<OpaqueNodePtr>,
    key: K,
    value: V,
) -> Change
    requires { (pairs : List (K × V)) × HasPairs K.bytes PREFIX_LEN arena.old root pairs }
    ensures { (pairs : List (K × V)) → HasPairs K.bytes PREFIX_LEN arena.old root pairs
        → IsDone K.bytes PREFIX_LEN arena.new pairs (Command.PrefixInsert key value) result }
{
    // By value an option of a name counts as moved, so a copy goes in.
    let before = root;
    let place = find_place_over(arena, before, key.as_bytes());
    match insert_over(arena, place, key, value) {
        Ok(put) => change_of(&put),
        Err(_) => Change {
            root,
            answer: Answer::Memory,
        },
    }
}

// Stores clones of a pair in the place of those whose keys overlap its key.
fn prefix_insert<K: AsBytes + Clone, V: Clone, const PREFIX_LEN: usize>(
    arena: &mut NodeArena<K, V, PREFIX_LEN>,
    root: Option<OpaqueNodePtr>,
    key: &K,
    value: &V,
) -> Change
    requires keys { (k c : K) → K.is_clone k c → K.bytes c ≡ K.bytes k }
    requires pairs { (n : ℕ) × (pairs : List (K × V))
        × HasClones K.bytes PREFIX_LEN arena.old (IsCloned K.is_clone n) (IsCloned V.is_clone n) root pairs }
    ensures { (n : ℕ) (pairs : List (K × V))
        → HasClones K.bytes PREFIX_LEN arena.old (IsCloned K.is_clone n) (IsCloned V.is_clone n) root pairs
        → IsExecuted K.bytes PREFIX_LEN arena.new (IsCloned K.is_clone n) (IsCloned V.is_clone n) pairs
        (Command.PrefixInsert key.now value.now) result }
{
    match cloned(key, value) {
        Ok((key, value)) => overwrite(arena, root, key, value),
        Err(_) => Change {
            root,
            answer: Answer::Memory,
        },
    }
}

// Removes the pair with a key.
fn delete<K: AsBytes + Drop, V: Drop, const PREFIX_LEN: usize>(
    arena: &mut NodeArena<K, V, PREFIX_LEN>,
    root: Option<OpaqueNodePtr>,
    key: &K,
) -> Change
    requires { (pairs : List (K × V)) × HasPairs K.bytes PREFIX_LEN arena.old root pairs }
    ensures { (pairs : List (K × V)) → HasPairs K.bytes PREFIX_LEN arena.old root pairs
        → IsDone K.bytes PREFIX_LEN arena.new pairs (Command.Delete key.now) result }
{
    // By value an option of a name counts as moved, so a copy goes in.
    let before = root;
    match take_pair(arena, before, key.as_bytes()) {
        Ok(Some(deleted)) => Change {
            root: deleted.new_root,
            answer: Answer::Done(1),
        },
        Ok(None) => Change {
            root,
            answer: Answer::Done(0),
        },
        Err(_) => Change {
            root,
            answer: Answer::Memory,
        },
    }
}

// Lets a clone of the tree take its place. Where no memory holds an inner node, none is cloned.
fn clone_tree<K: AsBytes + Clone, V: Clone, const PREFIX_LEN: usize>(
    alloc: Global,
    arena: &mut NodeArena<K, V, PREFIX_LEN>,
    root: Option<OpaqueNodePtr>,
) -> Change
    requires keys { (k c : K) → K.is_clone k c → K.bytes c ≡ K.bytes k }
    requires pairs { (pairs : List (K × V)) × HasPairs K.bytes PREFIX_LEN arena.old root pairs }
    ensures { (n : ℕ) (pairs : List (K × V))
        → HasClones K.bytes PREFIX_LEN arena.old (IsCloned K.is_clone n) (IsCloned V.is_clone n) root pairs
        → IsExecuted K.bytes PREFIX_LEN arena.new (IsCloned K.is_clone (suc n)) (IsCloned V.is_clone (suc n)) pairs
        Command.Clone result }
{
    let answer = Answer::Done(0);
    let Some(top) = root else {
        return Change { root, answer };
    };
    if !arena.fits_in_memory() {
        return Change {
            root,
            answer: Answer::Memory,
        };
    }
    match clone_unchecked(alloc, arena, top) {
        Ok(cloned) => {
            let new_root = cloned.root;
            *arena = cloned.arena;
            Change {
                root: Some(new_root),
                answer,
            }
        }
        Err(_) => Change {
            root,
            answer: Answer::Memory,
        },
    }
}

// Carries out one command.
fn execute<K: AsBytes + Clone, V: Clone, const PREFIX_LEN: usize>(
    alloc: Global,
    arena: &mut NodeArena<K, V, PREFIX_LEN>,
    root: Option<OpaqueNodePtr>,
    command: &Command<K, V>,
) -> Change
    requires keys { (k c : K) → K.is_clone k c → K.bytes c ≡ K.bytes k }
    requires pairs { (n : ℕ) × (pairs : List (K × V))
        × HasClones K.bytes PREFIX_LEN arena.old (IsCloned K.is_clone n) (IsCloned V.is_clone n) root pairs }
    ensures { (n : ℕ) (pairs : List (K × V))
        → HasClones K.bytes PREFIX_LEN arena.old (IsCloned K.is_clone n) (IsCloned V.is_clone n) root pairs
        → IsExecuted K.bytes PREFIX_LEN arena.new (IsCloned K.is_clone (with_clone command.now n))
        (IsCloned V.is_clone (with_clone command.now n)) pairs command.now result }
{
    match command {
        Command::Insert(key, value) => insert(arena, root, key, value),
        Command::PrefixInsert(key, value) => prefix_insert(arena, root, key, value),
        Command::Delete(key) => delete(arena, root, key),
        Command::Clone => clone_tree(alloc, arena, root),
    }
}

/// Carries out the commands one after the other, from no pair on, and returns an answer to each in turn.
///
/// An insertion is answered `Prefix` exactly if its key is in conflict with a stored one, which needs no memory. A
/// command whose key or value can't be cloned, or for whose nodes there is no memory, is answered `Memory` and changes
/// nothing. If the key is stored already, an insertion of either kind needs clones alone. With each `Clone` the tree
/// may be a clone of a clone once more.
///
/// The run itself fails only if there is no memory for the answers, before the first command.
pub fn run<K: AsBytes + Clone, V: Clone, const PREFIX_LEN: usize>(
    alloc: Global,
    commands: &[Command<K, V>],
) -> Result<RunResult<K, V, PREFIX_LEN>, AllocError>
    requires { (k c : K) → K.is_clone k c → K.bytes c ≡ K.bytes k }
    ensures answers { IfOk result (λ ran. AreAnswered K.bytes [] commands.now ran.answers.items) }
    ensures tree { IfOk result (λ ran. HoldsClonesOf K.bytes PREFIX_LEN ran.arena
        (IsCloned K.is_clone (clones_in commands.now)) (IsCloned V.is_clone (clones_in commands.now)) ran.root
        (pairs_after K.bytes commands.now ran.answers.items [])) }
{
    let mut answers = Vec::with_capacity(alloc, commands.len())?;
    let mut arena = NodeArena::new(alloc);
    let mut root = None;
    for command in commands {
        let change = execute(alloc, &mut arena, root, command);
        root = change.root;
        answers.push_reserved(change.answer);
    }
    Ok(RunResult {
        arena,
        root,
        answers,
    })
}

//! Many pairs are put in.
ghost use Rattle.std.specs.Prelude.{◌≡◌, ◌+◌, ◌*◌, ◌≤◌, ℕ, suc, false, if◌then◌else◌, IfOk, IfSome, IsTrue};
ghost use Rattle.std.specs.Prelude.{MatchResult, option_map};
ghost use Rattle.art_arena.specs.arena.Shapes.{key_of};
ghost use Rattle.art_bytes.specs.Keys.{AreBytes};
ghost use Rattle.art_c.specs.Calls.{IsPutRefused, whole};
ghost use Rattle.art_c.specs.Handles.{Pairs};
ghost use Rattle.art_c.specs.Loads.{AreShort, is_above, IsLoaded, IsLoadedIn};
ghost use Rattle.art_c.specs.Placed.{IsLong};
ghost use Rattle.art_c.specs.declared.code.Code.TheVariants.{NoMemory};
ghost use Rattle.art_map.specs.Builders.{HasGathered, HasRoomLeft};
ghost use Rattle.art_operations.specs.Builders.{IsAfterAll};
ghost use Rattle.art_operations.specs.KeyedLists.{HasKey, IsBlocked};
ghost use Rattle.art_operations.specs.Pairs.{with_pair_put};

use crate::bytes::Bytes;
use crate::code::Code;
use crate::handle::Map;
use crate::value::Value;
use art_bytes::SliceKey;
use art_map::{TreeMap, TreeMapBuilder};
use std::alloc::Global;
use std::mem;

fn is_above(before: Option<&[u8]>, key: &[u8]) -> bool
    ensures { result ≡ is_above (option_map (λ bytes. bytes.now) before.entry) key.now }
{
    match before {
        Some(bytes) => bytes.cmp(key).is_lt(),
        None => true,
    }
}

/// A map in the making.
type Builder<V> = TreeMapBuilder<Bytes, V, 16>;

/// Puts a pair in after all others, if all before it went there. It tells whether it did. It did not where its key
/// doesn't go after all, or there is no memory.
fn push_after<V: Value>(
    builder: &mut Builder<V>,
    alloc: Global,
    at_end: bool,
    key: &[u8],
    item: V::Item,
    text: &[u8],
) -> bool
    requires taken { (pairs : Pairs V) × HasGathered whole AreBytes builder.old pairs }
    ensures pairs { (pairs : Pairs V) → HasGathered whole AreBytes builder.old pairs
        → HasGathered whole AreBytes builder.new
        (if result then with_pair_put whole key.now (V.value_of item text.now) pairs else pairs) }
    ensures after { IsTrue result → (pairs : Pairs V) → HasGathered whole AreBytes builder.old pairs
        → IsAfterAll whole key.now pairs }
    ensures room { (n : ℕ) → 1 ≤ n → HasRoomLeft builder.old (if result then n + 2 else n)
        → HasRoomLeft builder.new n }
{
    if !at_end {
        return false;
    }
    let Ok(key) = Bytes::copied(alloc, key) else {
        return false;
    };
    let Ok(value) = V::made(alloc, item, text) else {
        return false;
    };
    builder.push(key, value).is_ok()
}

/// Puts a pair in where its key belongs. It tells whether it did. It did not where a stored key blocks the key, or
/// there is no memory.
fn put_inside<V: Value>(
    builder: &mut Builder<V>,
    alloc: Global,
    key: &[u8],
    item: V::Item,
    text: &[u8],
) -> bool
    requires taken { (pairs : Pairs V) × HasGathered whole AreBytes builder.old pairs }
    ensures pairs { (pairs : Pairs V) → HasGathered whole AreBytes builder.old pairs
        → HasGathered whole AreBytes builder.new
        (if result then with_pair_put whole key.now (V.value_of item text.now) pairs else pairs) }
    ensures room { (n : ℕ) → 1 ≤ n → HasRoomLeft builder.old (if result then n + 2 else n)
        → HasRoomLeft builder.new n }
    ensures refused { result ≡ false → (pairs : Pairs V) → HasGathered whole AreBytes builder.old pairs
        → HasRoomLeft builder.old 2 → (IsLong key.now → ⊥) → (IsLong text.now → ⊥)
        → IsBlocked (key_of whole) key.now pairs }
{
    let Ok(key) = Bytes::copied(alloc, key) else {
        return false;
    };
    let Ok(value) = V::made(alloc, item, text) else {
        return false;
    };
    builder.try_put(key, value).is_ok()
}

/// Puts a pair in whose key is above the one before it, which is in. It tells whether it did. It did not where the key
/// isn't above, where a stored key blocks it, or there is no memory. As long as keys go after all, each is compared
/// once.
fn put_above<V: Value>(
    builder: &mut Builder<V>,
    alloc: Global,
    at_end: &mut bool,
    before: Option<&[u8]>,
    key: &[u8],
    item: V::Item,
    text: &[u8],
) -> bool
    requires taken { (pairs : Pairs V) × HasGathered whole AreBytes builder.old pairs }
    ensures pairs { (pairs : Pairs V) → HasGathered whole AreBytes builder.old pairs
        → HasGathered whole AreBytes builder.new
        (if result then with_pair_put whole key.now (V.value_of item text.now) pairs else pairs) }
    ensures above { IsTrue result → (pairs : Pairs V) → HasGathered whole AreBytes builder.old pairs
        → IfSome (option_map (λ bytes. bytes.now) before.entry) (λ b. HasKey (key_of whole) b pairs)
        → IsTrue (is_above (option_map (λ bytes. bytes.now) before.entry) key.now) }
    ensures room { (n : ℕ) → 1 ≤ n → HasRoomLeft builder.old (if result then n + 2 else n)
        → HasRoomLeft builder.new n }
    ensures refused { result ≡ false → (pairs : Pairs V) → HasGathered whole AreBytes builder.old pairs
        → IsTrue (is_above (option_map (λ bytes. bytes.now) before.entry) key.now)
        → HasRoomLeft builder.old 2 → (IsLong key.now → ⊥) → (IsLong text.now → ⊥)
        → IsBlocked (key_of whole) key.now pairs }
{
    *at_end = push_after(builder, alloc, *at_end, key, item, text);
    if *at_end {
        return true;
    }
    let rises = is_above(before, key);
    if !rises {
        return false;
    }
    put_inside(builder, alloc, key, item, text)
}

/// Puts in the pairs of a buffer, and tells how it ends, or the key of the first pair that is not put in.
fn put_rising<'a, V: Value>(
    builder: &mut Builder<V>,
    alloc: Global,
    bytes: &'a [u8],
    items: &[V::Item],
    taken: &mut usize,
) -> Result<Code, &'a [u8]>
    requires taken { (pairs : Pairs V) × HasGathered whole AreBytes builder.old pairs }
    ensures loaded { (pairs : Pairs V) → HasGathered whole AreBytes builder.old pairs
        → (new : Pairs V) × HasGathered whole AreBytes builder.new new × MatchResult result
        (λ code. IsLoaded V.text_of V.item_of V.key_len_of V.text_len_of bytes.now items.now pairs taken.old
        code new taken.new)
        (λ key. ((code : Code) → IsPutRefused key.now new code new
        → IsLoaded V.text_of V.item_of V.key_len_of V.text_len_of bytes.now items.now pairs taken.old
        code new taken.new)
        × (HasRoomLeft builder.old (2 * suc taken.new) → AreShort V.key_len_of V.text_len_of items.now
        → IsBlocked (key_of whole) key.now new)) }
    ensures room { (n : ℕ) → 1 ≤ n → HasRoomLeft builder.old (n + 2 * taken.new) → HasRoomLeft builder.new n }
    ensures ended { IfOk result (λ code. code ≡ NoMemory → ⊥) }
{
    let (mut rest, mut before, mut at_end) = (bytes, None, true);
    for (at, item) in items.iter().enumerate() {
        *taken = at;
        let Some((key, text, following)) = V::parts(*item, rest) else {
            return Ok(Code::CutOff);
        };
        if !put_above(builder, alloc, &mut at_end, before, key, *item, text) {
            if !is_above(before, key) {
                return Ok(Code::NotAbove);
            }
            return Err(key);
        }
        (rest, before) = (following, Some(key));
    }
    *taken = items.len();
    Ok(Code::Done)
}

/// Why a pair with this key was not put in: a stored key blocks it, or there was no memory.
fn refusal<V: Drop>(map: &Map<V>, key: &[u8]) -> Code
    ensures { IsPutRefused key.now map.now.pairs result map.now.pairs }
{
    match map.find_place(&SliceKey(key)) {
        Ok(_) => Code::NoMemory,
        Err(_) => Code::Conflict,
    }
}

/// Builds along the last leaf, so as long as keys go after those of the map no place is looked for.
pub(crate) fn load<V: Value>(
    map: &mut Map<V>,
    alloc: Global,
    bytes: &[u8],
    items: &[V::Item],
    taken: &mut usize,
) -> Code
    ensures { IsLoadedIn V.text_of V.item_of V.key_len_of V.text_len_of bytes.now items.now map.old taken.old
        result map.new taken.new }
{
    let mut builder = TreeMapBuilder::from_map(mem::replace(map, TreeMap::new(alloc)));
    let ended = put_rising(&mut builder, alloc, bytes, items, taken);
    *map = builder.finish();
    match ended {
        Ok(code) => code,
        Err(key) => refusal(map, key),
    }
}

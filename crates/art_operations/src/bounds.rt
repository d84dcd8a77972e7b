//! The leaves that a bound or a prefix selects.
ghost use Rattle.std.specs.Prelude.{◌≡◌, ℕ, suc, ◌+◌, ◌*◌, ◌≤◌, ◌++◌, ◌∷◌, [], List, drop, if◌then◌else◌, length};
ghost use Rattle.std.specs.Prelude.{nat_lt, None, Some, IfSome, MatchOption};
ghost use Rattle.std.specs.BTreeMap.Range.{is_past_end, range_contains};
ghost use Rattle.std.specs.Range.Bound.{bound_map};
ghost use Rattle.art_bytes.specs.Keys.{BeginsWith, bytes_cmp};
ghost use Rattle.art_nodes.specs.InnerNode.{child_at};
ghost use Rattle.art_arena.specs.arena.Arena.{links_at};
ghost use Rattle.art_arena.specs.arena.Descents.{passing};
ghost use Rattle.art_arena.specs.arena.Linked.{AreLinked};
ghost use Rattle.art_arena.specs.arena.Shapes.{Branches, Shape, children_at, erase, erase_in, inner_at};
ghost use Rattle.art_arena.specs.arena.Shapes.{key_of, leaves, leaves_in};
ghost use Rattle.art_arena.specs.declared.ends.End.TheVariants.{First, Last};
ghost use Rattle.art_arena.specs.tree.Ways.{end_path, way_end};
ghost use Rattle.art_arena.specs.arena.Stores.{Stores, StoresBelow};
ghost use Rattle.art_arena.specs.tree.Tenants.{begins_with};
ghost use Rattle.art_operations.specs.Bounds.{AreEndsWhere, slot_inside};
ghost use Rattle.art_operations.specs.Meetings.{PartAt};
ghost use Rattle.art_operations.specs.Openings.{EndReads, ForLongest, ReadsAtLeast, ReadsExactly, SpanReads};
ghost use Rattle.art_operations.specs.Openings.{beside_reads, bound_reads, first_above, near_reads, part_reads};
ghost use Rattle.art_operations.specs.Openings.{place_reads, range_reads};
ghost use Rattle.art_operations.specs.Points.{AllConflict, IsPoint};
ghost use Rattle.art_operations.specs.declared.insert.point.InsertKind.TheVariants as kind;
ghost use Rattle.art_operations.specs.inner.Nearest.{IsNearest, bound_at, takes};
ghost use Rattle.art_operations.specs.Whichever.{HasSome, HasTree, OfEach, OfTree};

use crate::delete::subtree::search_for_subtree_delete_point;
use crate::insert::point::{InsertKind, InsertPoint, find_insert_point_with};
use crate::meeting::Parted;
use crate::minmax::{maximum_with, minimum_with};
use art_arena::{ArenaReader, End, LeafPtr, NodeArena, end_leaf_with};
use art_bytes::AsBytes;
use art_nodes::{LeafNode, OpaqueNodePtr};
use std::cmp::Ordering;
use std::ops::Bound;

// A leaf beside the place of a key: before it are smaller keys, after it greater ones. How its own compares.
#[derive(Clone, Copy)]
struct Nearest {
    leaf: LeafPtr,
    order: Ordering,
}

/// Finds a leaf in the tree below a name. For a bound as a start that is the first whose key is inside it, for one as
/// an end the last. It returns `None` if there is none. The bound's key need not be stored.
///
/// It allocates nothing: it finds the place of the bound's key, and a leaf beside it.
pub fn find_leaf_pointer_for_bound<K: AsBytes, V, const PREFIX_LEN: usize>(
    arena: &NodeArena<K, V, PREFIX_LEN>,
    root: OpaqueNodePtr,
    bound: Bound<&[u8]>,
    is_start: bool,
) -> Option<LeafPtr>
    requires { (s : Shape K V) × Stores K.bytes PREFIX_LEN arena.now root s
        × AreLinked (links_at arena.now) None (leaves s) None }
    ensures { OfTree K.bytes PREFIX_LEN arena.now root (λ s. AreLinked (links_at arena.now) None (leaves s) None
        → result ≡ slot_inside K.bytes is_start (bound_map (λ key. key.now) bound.entry) (leaves s)) }
{
    let mut reader = ArenaReader::new(arena);
    find_leaf_pointer_for_bound_with(&mut reader, root, bound, is_start)
}

/// Returns what `find_leaf_pointer_for_bound` does, by a reader that counts each node that is read. At least one is,
/// the root. They are fewer than 3 * (k + 2), where k is the length of the longest key.
pub fn find_leaf_pointer_for_bound_with<K: AsBytes, V, const PREFIX_LEN: usize>(
    reader: &mut ArenaReader<'_, K, V, PREFIX_LEN>,
    root: OpaqueNodePtr,
    bound: Bound<&[u8]>,
    is_start: bool,
) -> Option<LeafPtr>
    requires { (s : Shape K V) × Stores K.bytes PREFIX_LEN reader.old.arena.now root s
        × AreLinked (links_at reader.old.arena.now) None (leaves s) None }
    ensures value { OfTree K.bytes PREFIX_LEN reader.old.arena.now root
        (λ s. AreLinked (links_at reader.old.arena.now) None (leaves s) None
        → result ≡ slot_inside K.bytes is_start (bound_map (λ key. key.now) bound.entry) (leaves s)) }
    ensures kept { reader.new.arena.now ≡ reader.old.arena.now }
    ensures counts { OfTree K.bytes PREFIX_LEN reader.old.arena.now root (λ s. ReadsExactly
        (bound_reads PREFIX_LEN is_start (erase s) (bound_map (λ key. key.now) bound.entry)) reader.old.count
        reader.new.count) }
    ensures least { ReadsAtLeast 1 reader.old.count reader.new.count }
    ensures few { OfTree K.bytes PREFIX_LEN reader.old.arena.now root (λ s. ForLongest K.bytes s
        (λ longest. EndReads longest reader.old.count reader.new.count)) }
{
    match bound {
        Bound::Unbounded => {
            if is_start {
                return Some(minimum_with(reader, root));
            }
            Some(maximum_with(reader, root))
        }
        Bound::Included(key) => leaf_inside(reader, root, key, true, is_start),
        Bound::Excluded(key) => leaf_inside(reader, root, key, false, is_start),
    }
}

// Returns what `find_leaf_pointer_for_bound` does for a bound at this key, which takes the key itself or not.
fn leaf_inside<K: AsBytes, V, const PREFIX_LEN: usize>(
    reader: &mut ArenaReader<'_, K, V, PREFIX_LEN>,
    root: OpaqueNodePtr,
    key: &[u8],
    includes: bool,
    is_start: bool,
) -> Option<LeafPtr>
    requires { (s : Shape K V) × Stores K.bytes PREFIX_LEN reader.old.arena.now root s
        × AreLinked (links_at reader.old.arena.now) None (leaves s) None }
    ensures value { OfTree K.bytes PREFIX_LEN reader.old.arena.now root
        (λ s. AreLinked (links_at reader.old.arena.now) None (leaves s) None
        → result ≡ slot_inside K.bytes is_start (bound_at includes key.now) (leaves s)) }
    ensures kept { reader.new.arena.now ≡ reader.old.arena.now }
    ensures counts { OfTree K.bytes PREFIX_LEN reader.old.arena.now root
        (λ s. ReadsExactly (suc (place_reads PREFIX_LEN (erase s) key.now + near_reads (way_end (erase s) key.now)))
        reader.old.count reader.new.count) }
    ensures least { ReadsAtLeast 1 reader.old.count reader.new.count }
    ensures few { OfTree K.bytes PREFIX_LEN reader.old.arena.now root (λ s. ForLongest K.bytes s
        (λ longest. EndReads longest reader.old.count reader.new.count)) }
{
    let nearest = nearest_leaf(reader, root, key);
    let leaf = reader.visit_leaf(nearest.leaf);
    inside(
        nearest,
        leaf,
        takes(is_start, includes, nearest.order),
        is_start,
    )
}

// The leaf beside the place of a bound's key if the bound takes it, or else its neighbour on the side that is inside.
fn inside<K, V>(
    nearest: Nearest,
    leaf: &LeafNode<K, V>,
    is_taken: bool,
    is_start: bool,
) -> Option<LeafPtr>
    ensures { result ≡ (if is_taken then Some nearest.leaf else if is_start then leaf.now.next else leaf.now.previous) }
{
    if is_taken {
        return Some(nearest.leaf);
    }
    if is_start {
        return leaf.next();
    }
    leaf.previous()
}

// Whether a bound takes a key that compares so with its own. It is a start or an end, and takes its own key or not.
fn takes(is_start: bool, includes: bool, order: Ordering) -> bool
    ensures { result ≡ takes is_start includes order }
{
    match order {
        Ordering::Less => !is_start,
        Ordering::Equal => includes,
        Ordering::Greater => is_start,
    }
}

// A leaf beside the place of a key.
fn nearest_leaf<K: AsBytes, V, const PREFIX_LEN: usize>(
    reader: &mut ArenaReader<'_, K, V, PREFIX_LEN>,
    root: OpaqueNodePtr,
    key: &[u8],
) -> Nearest
    requires { HasTree K.bytes PREFIX_LEN reader.old.arena.now root }
    ensures nearest { OfTree K.bytes PREFIX_LEN reader.old.arena.now root
        (λ s. IsNearest K.bytes key.now (leaves s) result.leaf result.order) }
    ensures kept { reader.new.arena.now ≡ reader.old.arena.now }
    ensures counts { OfTree K.bytes PREFIX_LEN reader.old.arena.now root
        (λ s. ReadsExactly (place_reads PREFIX_LEN (erase s) key.now + near_reads (way_end (erase s) key.now))
        reader.old.count reader.new.count) }
    ensures least { ReadsAtLeast 1 reader.old.count reader.new.count }
    ensures few { OfTree K.bytes PREFIX_LEN reader.old.arena.now root (λ s. ForLongest K.bytes s
        (λ longest. reader.new.count ≤ reader.old.count + (3 * longest + 4))) }
{
    match find_insert_point_with(reader, root, key) {
        Err(conflict) => {
            let first = end_leaf_with(reader, conflict.part, End::First);
            compared(first.name, first.leaf, key)
        }
        Ok(point) => nearest_at(reader, root, point, key),
    }
}

// A leaf beside the place of a key, which is no other stored key's front, nor has one.
fn nearest_at<K: AsBytes, V, const PREFIX_LEN: usize>(
    reader: &mut ArenaReader<'_, K, V, PREFIX_LEN>,
    root: OpaqueNodePtr,
    point: InsertPoint,
    key: &[u8],
) -> Nearest
    requires { (s : Shape K V) × Stores K.bytes PREFIX_LEN reader.old.arena.now root s
        × IsPoint K.bytes key.now s point }
    ensures nearest { OfTree K.bytes PREFIX_LEN reader.old.arena.now root (λ s. IsPoint K.bytes key.now s point
        → IsNearest K.bytes key.now (leaves s) result.leaf result.order) }
    ensures kept { reader.new.arena.now ≡ reader.old.arena.now }
    ensures counts { OfTree K.bytes PREFIX_LEN reader.old.arena.now root (λ s. IsPoint K.bytes key.now s point
        → ReadsExactly (near_reads (way_end (erase s) key.now)) reader.old.count reader.new.count) }
    ensures least { ReadsAtLeast 1 reader.old.count reader.new.count }
    ensures few { OfTree K.bytes PREFIX_LEN reader.old.arena.now root (λ s. IsPoint K.bytes key.now s point
        → ForLongest K.bytes s (λ longest. reader.new.count ≤ reader.old.count + (longest + 2))) }
{
    let kind = point.insert_kind;
    match kind {
        InsertKind::Exact { leaf_node_ptr } => {
            compared(leaf_node_ptr, reader.visit_leaf(leaf_node_ptr), key)
        }
        InsertKind::SplitLeaf {
            leaf_node_ptr,
            parted: _,
        } => compared(leaf_node_ptr, reader.visit_leaf(leaf_node_ptr), key),
        InsertKind::MismatchPrefix {
            inner_node_ptr,
            parted,
        } => nearest_parted(reader, inner_node_ptr, parted),
        InsertKind::IntoExisting {
            inner_node_ptr,
            key_byte,
        } => nearest_child(reader, inner_node_ptr, key_byte),
    }
}

// A leaf that was read, and how its key compares with this one.
fn compared<K: AsBytes, V>(name: LeafPtr, leaf: &LeafNode<K, V>, key: &[u8]) -> Nearest
    ensures leaf { result.leaf ≡ name }
    ensures order { result.order ≡ bytes_cmp (K.bytes leaf.now.key) key.now }
{
    Nearest {
        leaf: name,
        order: leaf.key_ref().as_bytes().cmp(key),
    }
}

// The leaf beside a key that has another byte within the prefix of a node.
fn nearest_parted<K: AsBytes, V, const PREFIX_LEN: usize>(
    reader: &mut ArenaReader<'_, K, V, PREFIX_LEN>,
    node: OpaqueNodePtr,
    parted: Parted,
) -> Nearest
    requires { (path : List ℕ) × (prefix : List ℕ) × (kids : Branches K V)
        × StoresBelow K.bytes PREFIX_LEN reader.old.arena.now node path (inner_at node prefix kids) }
    ensures nearest { (key path : List ℕ) (prefix : List ℕ) (kids : Branches K V)
        → StoresBelow K.bytes PREFIX_LEN reader.old.arena.now node path (inner_at node prefix kids)
        → BeginsWith path key → PartAt prefix (drop (length path) key) parted
        → IsNearest K.bytes key (leaves_in kids) result.leaf result.order }
    ensures kept { reader.new.arena.now ≡ reader.old.arena.now }
    ensures counts { OfEach (StoresBelow K.bytes PREFIX_LEN reader.old.arena.now node) (λ path s. ReadsExactly
        (length (end_path (if nat_lt parted.new_byte parted.old_byte then First else Last) (erase s))) reader.old.count
        reader.new.count) }
    ensures least { ReadsAtLeast 1 reader.old.count reader.new.count }
    ensures few { OfEach (StoresBelow K.bytes PREFIX_LEN reader.old.arena.now node)
        (λ path s. ForLongest K.bytes s (λ longest. reader.new.count ≤ reader.old.count + (longest + 1))) }
{
    if parted.new_byte < parted.old_byte {
        return Nearest {
            leaf: minimum_with(reader, node),
            order: Ordering::Greater,
        };
    }
    Nearest {
        leaf: maximum_with(reader, node),
        order: Ordering::Less,
    }
}

// The leaf beside the place of a byte under which an inner node has no child.
fn nearest_child<K: AsBytes, V, const PREFIX_LEN: usize>(
    reader: &mut ArenaReader<'_, K, V, PREFIX_LEN>,
    node: OpaqueNodePtr,
    byte: u8,
) -> Nearest
    requires { (path : List ℕ) × (prefix : List ℕ) × (kids : Branches K V)
        × StoresBelow K.bytes PREFIX_LEN reader.old.arena.now node path (inner_at node prefix kids)
        × (child_at (children_at kids) byte ≡ None) }
    ensures nearest { (key path : List ℕ) (prefix : List ℕ) (kids : Branches K V)
        → StoresBelow K.bytes PREFIX_LEN reader.old.arena.now node path (inner_at node prefix kids)
        → child_at (children_at kids) byte ≡ None → BeginsWith ((path ++ prefix) ++ byte ∷ []) key
        → IsNearest K.bytes key (leaves_in kids) result.leaf result.order }
    ensures kept { reader.new.arena.now ≡ reader.old.arena.now }
    ensures counts { (path : List ℕ) (prefix : List ℕ) (kids : Branches K V)
        → StoresBelow K.bytes PREFIX_LEN reader.old.arena.now node path (inner_at node prefix kids)
        → child_at (children_at kids) byte ≡ None → ReadsExactly
        (beside_reads (erase (inner_at node prefix kids)) (first_above byte (erase_in kids))) reader.old.count
        reader.new.count }
    ensures least { ReadsAtLeast 1 reader.old.count reader.new.count }
    ensures few { (path : List ℕ) (prefix : List ℕ) (kids : Branches K V)
        → StoresBelow K.bytes PREFIX_LEN reader.old.arena.now node path (inner_at node prefix kids)
        → child_at (children_at kids) byte ≡ None → ForLongest K.bytes (inner_at node prefix kids)
        (λ longest. reader.new.count ≤ reader.old.count + (longest + 2)) }
{
    match reader.visit_inner(node).child_after(byte) {
        Some(next) => Nearest {
            leaf: minimum_with(reader, next.1),
            order: Ordering::Greater,
        },
        None => Nearest {
            leaf: maximum_with(reader, node),
            order: Ordering::Less,
        },
    }
}

// Whether a key is outside a bound as an end.
fn is_past(end: Bound<&[u8]>, key: &[u8]) -> bool
    ensures { result ≡ is_past_end bytes_cmp (bound_map (λ last. last.now) end.entry) key.now }
{
    match end {
        Bound::Included(last) => last.cmp(key).is_lt(),
        Bound::Excluded(last) => last.cmp(key).is_le(),
        Bound::Unbounded => false,
    }
}

/// Returns the first and the last of the leaves whose keys are between two bounds, in the tree below a name. It returns
/// `None` if there is none, as if the start is greater than the end.
///
/// It allocates nothing. It finds the first leaf from the start on and, unless that is past the end, the last leaf up
/// to the end.
pub fn find_range_segment<K: AsBytes, V, const PREFIX_LEN: usize>(
    arena: &NodeArena<K, V, PREFIX_LEN>,
    root: OpaqueNodePtr,
    start: Bound<&[u8]>,
    end: Bound<&[u8]>,
) -> Option<(LeafPtr, LeafPtr)>
    requires { (s : Shape K V) × Stores K.bytes PREFIX_LEN arena.now root s
        × AreLinked (links_at arena.now) None (leaves s) None }
    ensures { OfTree K.bytes PREFIX_LEN arena.now root (λ s. AreLinked (links_at arena.now) None (leaves s) None
        → AreEndsWhere K.bytes (λ k. range_contains bytes_cmp (bound_map (λ key. key.now) start.entry)
        (bound_map (λ key. key.now) end.entry) k) (leaves s) result) }
{
    let mut reader = ArenaReader::new(arena);
    find_range_segment_with(&mut reader, root, start, end)
}

/// Returns what `find_range_segment` does, by a reader that counts each node that is read. At least one is, the root.
/// They are at most 6 * (k + 2), where k is the length of the longest key.
pub fn find_range_segment_with<K: AsBytes, V, const PREFIX_LEN: usize>(
    reader: &mut ArenaReader<'_, K, V, PREFIX_LEN>,
    root: OpaqueNodePtr,
    start: Bound<&[u8]>,
    end: Bound<&[u8]>,
) -> Option<(LeafPtr, LeafPtr)>
    requires { (s : Shape K V) × Stores K.bytes PREFIX_LEN reader.old.arena.now root s
        × AreLinked (links_at reader.old.arena.now) None (leaves s) None }
    ensures value { OfTree K.bytes PREFIX_LEN reader.old.arena.now root
        (λ s. AreLinked (links_at reader.old.arena.now) None (leaves s) None
        → AreEndsWhere K.bytes (λ k. range_contains bytes_cmp (bound_map (λ key. key.now) start.entry)
        (bound_map (λ key. key.now) end.entry) k) (leaves s) result) }
    ensures kept { reader.new.arena.now ≡ reader.old.arena.now }
    ensures counts { OfTree K.bytes PREFIX_LEN reader.old.arena.now root
        (λ s. AreLinked (links_at reader.old.arena.now) None (leaves s) None → ReadsExactly
        (range_reads (key_of K.bytes) PREFIX_LEN (erase s) (bound_map (λ key. key.now) start.entry)
        (bound_map (λ key. key.now) end.entry)) reader.old.count reader.new.count) }
    ensures least { ReadsAtLeast 1 reader.old.count reader.new.count }
    ensures few { OfTree K.bytes PREFIX_LEN reader.old.arena.now root (λ s. ForLongest K.bytes s
        (λ longest. SpanReads longest reader.old.count reader.new.count)) }
{
    let first = match find_leaf_pointer_for_bound_with(reader, root, start, true) {
        Some(first) => first,
        None => return None,
    };
    if is_past(end, reader.visit_leaf(first).key_ref().as_bytes()) {
        return None;
    }
    match find_leaf_pointer_for_bound_with(reader, root, end, false) {
        Some(last) => Some((first, last)),
        None => None,
    }
}

/// Returns the first and the last of the leaves whose keys begin with a prefix, in the tree below a name, or `None` if
/// there is none. The prefix need not end where a node's does.
///
/// It allocates nothing: it finds the place of the prefix, and both ends of the part there.
pub fn find_prefix_segment<K: AsBytes, V, const PREFIX_LEN: usize>(
    arena: &NodeArena<K, V, PREFIX_LEN>,
    root: OpaqueNodePtr,
    prefix: &[u8],
) -> Option<(LeafPtr, LeafPtr)>
    requires { HasTree K.bytes PREFIX_LEN arena.now root }
    ensures { OfTree K.bytes PREFIX_LEN arena.now root
        (λ s. AreEndsWhere K.bytes (λ k. begins_with prefix.now k) (leaves s) result) }
{
    let mut reader = ArenaReader::new(arena);
    find_prefix_segment_with(&mut reader, root, prefix)
}

/// Returns what `find_prefix_segment` does, by a reader that counts each node that is read. At least one is, the root.
/// They are at most 6 * (k + 2), where k is the length of the longest key.
pub fn find_prefix_segment_with<K: AsBytes, V, const PREFIX_LEN: usize>(
    reader: &mut ArenaReader<'_, K, V, PREFIX_LEN>,
    root: OpaqueNodePtr,
    prefix: &[u8],
) -> Option<(LeafPtr, LeafPtr)>
    requires { HasTree K.bytes PREFIX_LEN reader.old.arena.now root }
    ensures value { OfTree K.bytes PREFIX_LEN reader.old.arena.now root
        (λ s. AreEndsWhere K.bytes (λ k. begins_with prefix.now k) (leaves s) result) }
    ensures kept { reader.new.arena.now ≡ reader.old.arena.now }
    ensures counts { OfTree K.bytes PREFIX_LEN reader.old.arena.now root (λ s. ReadsExactly
        (part_reads (key_of K.bytes) PREFIX_LEN (erase s) prefix.now) reader.old.count reader.new.count) }
    ensures least { ReadsAtLeast 1 reader.old.count reader.new.count }
    ensures few { OfTree K.bytes PREFIX_LEN reader.old.arena.now root (λ s. ForLongest K.bytes s
        (λ longest. SpanReads longest reader.old.count reader.new.count)) }
{
    match search_for_subtree_delete_point(reader, root, prefix) {
        Some(part) => Some((part.first_leaf, part.last_leaf)),
        None => None,
    }
}

/// The ends of a part whose leaves are all in conflict with a prefix, if they begin with it. Either all do or none.
pub(crate) fn segment_at<K: AsBytes, V, const PREFIX_LEN: usize>(
    reader: &mut ArenaReader<'_, K, V, PREFIX_LEN>,
    part: OpaqueNodePtr,
    prefix: &[u8],
) -> Option<(LeafPtr, LeafPtr)>
    requires { HasSome (StoresBelow K.bytes PREFIX_LEN reader.old.arena.now part) }
    ensures value { OfEach (StoresBelow K.bytes PREFIX_LEN reader.old.arena.now part)
        (λ path s. AllConflict K.bytes prefix.now (leaves s)
        → AreEndsWhere K.bytes (λ k. begins_with prefix.now k) (leaves s) result) }
    ensures all { IfSome result (λ ends. OfEach (StoresBelow K.bytes PREFIX_LEN reader.old.arena.now part)
        (λ path s. AllConflict K.bytes prefix.now (leaves s)
        → passing K.bytes (λ k. begins_with prefix.now k) (leaves s) ≡ leaves s)) }
    ensures kept { reader.new.arena.now ≡ reader.old.arena.now }
    ensures counts { OfEach (StoresBelow K.bytes PREFIX_LEN reader.old.arena.now part) (λ path s. MatchOption result
        (ReadsExactly (length (end_path First (erase s))) reader.old.count reader.new.count)
        (λ ends. ReadsExactly (length (end_path First (erase s)) + length (end_path Last (erase s))) reader.old.count
        reader.new.count)) }
    ensures least { ReadsAtLeast 1 reader.old.count reader.new.count }
    ensures few { OfEach (StoresBelow K.bytes PREFIX_LEN reader.old.arena.now part)
        (λ path s. ForLongest K.bytes s (λ longest. reader.new.count ≤ reader.old.count + 2 * (longest + 1))) }
{
    let first = end_leaf_with(reader, part, End::First);
    if first.leaf.key_ref().as_bytes().starts_with(prefix) {
        return Some((first.name, maximum_with(reader, part)));
    }
    None
}

//! The nodes of a tree, under their names.
ghost use Rattle.std.specs.Prelude.{◌≡◌, ◌≢◌, ℕ, ◌<◌, ◌^◌, ◌↔◌, List, length};
ghost use Rattle.std.specs.Prelude.{Some, None, IfOk, OnErr, IfErr, OnOk, IsSome, IsTrue, IsOk};

use crate::nodes::{Nodes, PREFIX_LEN_LIMIT};
use crate::stored::Stored;
use art_nodes::{
    InnerNode4, InnerNode16, InnerNode32, InnerNode48, InnerNode256, KindLeaf, LeafNode, NodePtr,
    NodeType, OpaqueNodePtr,
};
use std::alloc::{AllocError, Global};
use std::marker::Model;
use std::mem;
use thiserror::Error;

/// The name of a leaf.
pub type LeafPtr = NodePtr<KindLeaf>;

/// The nodes of one tree or more. Each stands under the name that it got when it was stored: a kind, and a key in the
/// slab of that kind.
#[derive(Drop)]
pub struct NodeArena<K, V, const PREFIX_LEN: usize> {
    pub(crate) leaves: Nodes<LeafNode<K, V>, 0>,
    pub(crate) nodes4: Nodes<InnerNode4<K, V, PREFIX_LEN>, PREFIX_LEN>,
    pub(crate) nodes16: Nodes<InnerNode16<K, V, PREFIX_LEN>, PREFIX_LEN>,
    pub(crate) nodes32: Nodes<InnerNode32<K, V, PREFIX_LEN>, PREFIX_LEN>,
    pub(crate) nodes48: Nodes<InnerNode48<K, V, PREFIX_LEN>, PREFIX_LEN>,
    pub(crate) nodes256: Nodes<InnerNode256<K, V, PREFIX_LEN>, PREFIX_LEN>,
}

impl<K, V, const PREFIX_LEN: usize> Model for NodeArena<K, V, PREFIX_LEN> {
    ghost use Rattle.art_arena.specs.arena.Arena.{Arena};

    ghost Value = { Arena K V };

    ghost view = { λ a. record {
      leaves = a.leaves;
      nodes4 = a.nodes4;
      nodes16 = a.nodes16;
      nodes32 = a.nodes32;
      nodes48 = a.nodes48;
      nodes256 = a.nodes256;
    } };
}

/// The call was out of memory for a node, which the error returns.
#[derive(Debug, Drop, Error)]
#[error("no memory for a node")]
pub struct NodeRefused<N> {
    pub node: N,
}

// So that `?` converts it, which lets go of the node.
impl<N: Drop> From<NodeRefused<N>> for AllocError {
    fn from(refused: NodeRefused<N>) -> AllocError {
        AllocError
    }
}

impl<K, V, const PREFIX_LEN: usize> NodeArena<K, V, PREFIX_LEN> {
    ghost use Rattle.art_nodes.specs.Name.{Name};
    ghost use Rattle.art_arena.specs.arena.Cells.{UpdatesAt, leaf_name};
    ghost use Rattle.std.specs.Borrow.{sem};
    ghost use Rattle.art_arena.specs.arena.Lends.{lends_node, lends_leaf_value};
    ghost use Rattle.art_arena.specs.contracts.arena.NodeArena.{the_row};
    ghost use Rattle.art_arena.specs.arena.Arena.{leaf_held, held_at, links_at, node_at, Allocates, WritesLinks};
    ghost use Rattle.art_arena.specs.arena.Arena.{HasRoom, SameNodes, leaves_held};
    ghost use Rattle.art_arena.specs.arena.Shapes.{Shape, leaves};
    ghost use Rattle.art_arena.specs.arena.Stores.{StoresOnly};
    ghost use Rattle.art_arena.specs.arena.Arena.{HasRoomOf, IsTrimmed, KeepsRoom, KeepsRoomOf, UsesRoom};
    ghost use Rattle.art_arena.specs.arena.Arena.{leaf_capacity, HasNoRoom, HasNoUnusedRoom};
    ghost use Rattle.art_arena.specs.arena.Rooms.{FreesRoomOf, UsesRoomOf, SameLeaves};
    ghost use Rattle.art_arena.specs.arena.ArenaClones.{IsArenaClone, HasNoSpare};

    /// Makes an arena that holds no node, and has room for none. It allocates nothing.
    pub fn new(alloc: Global) -> Self
        ensures none { (n : Name) → held_at result n ≡ None }
        ensures no_room { HasNoRoom result }
    {
        NodeArena {
            leaves: Nodes::new(alloc),
            nodes4: Nodes::new(alloc),
            nodes16: Nodes::new(alloc),
            nodes32: Nodes::new(alloc),
            nodes48: Nodes::new(alloc),
            nodes256: Nodes::new(alloc),
        }
    }

    /// Returns whether a node stands under this name.
    pub fn holds(&self, name: OpaqueNodePtr) -> bool
        ensures { IsTrue result ↔ IsSome (held_at self.now name) }
    {
        let slot = name.slot();
        match name.node_type() {
            NodeType::Node4 => self.nodes4.contains(slot),
            NodeType::Node16 => self.nodes16.contains(slot),
            NodeType::Node32 => self.nodes32.contains(slot),
            NodeType::Node48 => self.nodes48.contains(slot),
            NodeType::Node256 => self.nodes256.contains(slot),
            NodeType::Leaf => self.leaves.contains(slot),
        }
    }

    /// Returns how many leaves there are: those of the tree, if the arena holds nothing else.
    pub fn leaf_count(&self) -> usize
        ensures value { result ≡ leaves_held self.now }
        ensures tree { (bytes : K → List ℕ) (root : Name) (s : Shape K V) → StoresOnly bytes PREFIX_LEN self.now root s
            → result ≡ length (leaves s) }
        ensures none { ((n : Name) → node_at self.now n ≡ None) → result ≡ 0 }
    {
        self.leaves.len()
    }

    /// Removes and drops all nodes. Their memory stays with the arena.
    pub fn clear(&mut self)
    where
        K: Drop,
        V: Drop,
        ensures empty { (n : Name) → held_at self.new n ≡ None }
        ensures room { KeepsRoom self.old self.new }
        ensures room_of { KeepsRoomOf self.old self.new }
        ensures leaf_capacity { leaf_capacity self.new ≡ leaf_capacity self.old }
    {
        self.leaves.clear();
        self.clear_inner();
    }

    /// Removes and drops all inner nodes. Every leaf stays where it stood, with its links, and the memory of the nodes
    /// stays with the arena.
    pub fn clear_inner(&mut self)
    where
        K: Drop,
        V: Drop,
        ensures leaves { SameLeaves self.old self.new }
        ensures vacant { (n : Name) → n.kind ≢ NodeType.Leaf → held_at self.new n ≡ None }
        ensures room { KeepsRoom self.old self.new }
        ensures room_of { KeepsRoomOf self.old self.new }
        ensures leaf_capacity { leaf_capacity self.new ≡ leaf_capacity self.old }
    {
        if PREFIX_LEN >= PREFIX_LEN_LIMIT {
            self.nodes4.none_fits();
            self.nodes16.none_fits();
            self.nodes32.none_fits();
            self.nodes48.none_fits();
            self.nodes256.none_fits();
            return;
        }
        self.nodes4.clear();
        self.nodes16.clear();
        self.nodes32.clear();
        self.nodes48.clear();
        self.nodes256.clear();
    }

    /// Makes an arena with a clone of each node under the same name, so that its links lead to clones as well. It has
    /// memory for as many nodes of each kind as this one has slots, and for no more.
    ///
    /// Fails if a key, a value or a node can't be cloned. Nothing is left of it then.
    pub fn try_clone(&self, alloc: Global) -> Result<Self, AllocError>
    where
        K: Clone,
        V: Clone,
        ensures clones { IfOk result (λ copy. IsArenaClone K.is_clone V.is_clone self.now copy) }
        ensures exact { IfOk result (λ copy. HasNoSpare self.now copy) }
    {
        let mut copy = NodeArena::new(alloc);
        copy.put_clones(self)?;
        Ok(copy)
    }

    // Puts clones of the nodes of another arena into this one, which has none: each under the name of its original.
    fn put_clones(&mut self, source: &Self) -> Result<(), AllocError>
    where
        K: Clone,
        V: Clone,
        requires { (n : Name) → held_at self.old n ≡ None }
        ensures clones { OnOk result (IsArenaClone K.is_clone V.is_clone source.now self.new) }
        ensures exact { OnOk result (HasNoSpare source.now self.new) }
    {
        self.leaves.put_clones(&source.leaves)?;
        if PREFIX_LEN >= PREFIX_LEN_LIMIT {
            source.nodes4.none_fits();
            source.nodes16.none_fits();
            source.nodes32.none_fits();
            source.nodes48.none_fits();
            source.nodes256.none_fits();
            self.nodes4.none_fits();
            self.nodes16.none_fits();
            self.nodes32.none_fits();
            self.nodes48.none_fits();
            self.nodes256.none_fits();
            return Ok(());
        }
        self.nodes4.put_clones(&source.nodes4)?;
        self.nodes16.put_clones(&source.nodes16)?;
        self.nodes32.put_clones(&source.nodes32)?;
        self.nodes48.put_clones(&source.nodes48)?;
        self.nodes256.put_clones(&source.nodes256)
    }

    /// Allocates so many more nodes, whatever their kinds: as many allocations then can't fail.
    ///
    /// Fails only if there is no room for so many, and no memory. Either way, room that was there stays, and no name
    /// changes.
    pub fn reserve(&mut self, additional: usize) -> Result<(), AllocError>
        ensures room { OnOk result (HasRoom self.new additional) }
        ensures succeeds { HasRoom self.old additional → IsOk result }
        ensures kept_room { KeepsRoom self.old self.new }
        ensures room_of { KeepsRoomOf self.old self.new }
        ensures kept { SameNodes self.old self.new }
    {
        self.leaves.reserve(NodeType::Leaf, additional)?;
        self.nodes4.reserve(NodeType::Node4, additional)?;
        self.nodes16.reserve(NodeType::Node16, additional)?;
        self.nodes32.reserve(NodeType::Node32, additional)?;
        self.nodes48.reserve(NodeType::Node48, additional)?;
        self.nodes256.reserve(NodeType::Node256, additional)
    }

    /// Allocates so many more nodes of one kind, and of no other: as many allocations of that kind then can't fail.
    ///
    /// Fails only if there is no room for so many, and no memory. Nothing is changed then. Either way, room that was
    /// there stays, and no name changes.
    pub fn reserve_kind(&mut self, kind: NodeType, additional: usize) -> Result<(), AllocError>
        ensures room { OnOk result (HasRoomOf self.new kind additional) }
        ensures succeeds { HasRoomOf self.old kind additional → IsOk result }
        ensures others { (other : NodeType) → other ≢ kind → (n : ℕ) → HasRoomOf self.new other n
            → HasRoomOf self.old other n }
        ensures err { OnErr result (self.new ≡ self.old) }
        ensures kept_room { KeepsRoom self.old self.new }
        ensures room_of { KeepsRoomOf self.old self.new }
        ensures kept { SameNodes self.old self.new }
    {
        match kind {
            NodeType::Node4 => self.nodes4.reserve(kind, additional),
            NodeType::Node16 => self.nodes16.reserve(kind, additional),
            NodeType::Node32 => self.nodes32.reserve(kind, additional),
            NodeType::Node48 => self.nodes48.reserve(kind, additional),
            NodeType::Node256 => self.nodes256.reserve(kind, additional),
            NodeType::Leaf => self.leaves.reserve(kind, additional),
        }
    }

    /// Gives memory back: of each kind, what lies after its last node. No node moves, and no name changes. So little
    /// goes back while the last nodes stay. Of a kind that has no node all goes back.
    pub fn shrink_to_fit(&mut self)
    where
        K: Drop,
        V: Drop,
        ensures kept { SameNodes self.old self.new }
        ensures no_more { KeepsRoomOf self.new self.old }
        ensures trimmed { PREFIX_LEN < 2 ^ 62 → IsTrimmed self.new }
        ensures frees { HasNoUnusedRoom self.new }
        ensures leaf_capacity { leaves_held self.old ≡ 0 → leaf_capacity self.new ≡ 0 }
    {
        self.leaves.shrink_to_fit();
        self.nodes4.shrink_to_fit();
        self.nodes16.shrink_to_fit();
        self.nodes32.shrink_to_fit();
        self.nodes48.shrink_to_fit();
        self.nodes256.shrink_to_fit();
    }

    /// Stores a node, and returns its name. Fails if out of memory; the error returns the node.
    pub fn allocate_node_ptr<N: Stored<K, V, Self>>(
        &mut self,
        node: N,
    ) -> Result<NodePtr<N::Kind>, NodeRefused<N>>
        ensures ok { IfOk result (λ slot. Allocates self.old self.new (record { kind = N.Kind.TYPE; slot = slot })
            (N.held node)) }
        ensures err { OnErr result (SameNodes self.old self.new) }
        ensures handed_back { IfErr result (λ refused. refused.node ≡ node) }
        ensures succeeds { HasRoom self.old 1 → IsOk result }
        ensures succeeds_of { HasRoomOf self.old N.Kind.TYPE 1 → IsOk result }
        ensures room { UsesRoom 1 self.old self.new }
        ensures room_of { UsesRoomOf N.Kind.TYPE self.old self.new }
        ensures kept_room { OnErr result (KeepsRoomOf self.old self.new) }
    {
        match N::insert(self, node) {
            Ok(slot) => Ok(NodePtr::from_slot(slot)),
            Err(failed) => Err(NodeRefused { node: failed.value }),
        }
    }

    /// Removes a node from the arena, and returns it. Its name may be given to another node later.
    pub fn deallocate_node_ptr<N: Stored<K, V, Self>>(&mut self, ptr: NodePtr<N::Kind>) -> N
        requires { IsSome (held_at self.old (record { kind = N.Kind.TYPE; slot = ptr })) }
        ensures value { held_at self.old (record { kind = N.Kind.TYPE; slot = ptr }) ≡ Some (N.held result) }
        ensures updates { UpdatesAt (held_at self.old) (held_at self.new) (record { kind = N.Kind.TYPE; slot = ptr })
            None }
        ensures room { KeepsRoom self.old self.new }
        ensures room_of { KeepsRoomOf self.old self.new }
        ensures frees { FreesRoomOf N.Kind.TYPE self.old self.new }
        ensures room_for_it { HasRoomOf self.new N.Kind.TYPE 1 }
        ensures capacity { leaf_capacity self.new ≡ leaf_capacity self.old }
    {
        N::remove(self, ptr.slot())
    }

    /// Puts a node in place of the one under this name, and returns that one.
    pub fn replace<N: Stored<K, V, Self>>(&mut self, ptr: NodePtr<N::Kind>, node: N) -> N
        requires { IsSome (held_at self.old (record { kind = N.Kind.TYPE; slot = ptr })) }
        ensures value { held_at self.old (record { kind = N.Kind.TYPE; slot = ptr }) ≡ Some (N.held result) }
        ensures updates { UpdatesAt (held_at self.old) (held_at self.new) (record { kind = N.Kind.TYPE; slot = ptr })
            (Some (N.held node)) }
        ensures room { KeepsRoom self.old self.new }
        ensures room_of { KeepsRoomOf self.old self.new }
    {
        mem::replace(self.as_mut::<N>(ptr), node)
    }

    /// Returns the node under this name.
    pub fn as_ref<N: Stored<K, V, Self>>(&self, ptr: NodePtr<N::Kind>) -> &N
        requires { IsSome (held_at self.now (record { kind = N.Kind.TYPE; slot = ptr })) }
        ensures { held_at self.now (record { kind = N.Kind.TYPE; slot = ptr }) ≡ Some (N.held result.now) }
    {
        N::get(self, ptr.slot())
    }

    /// Returns whether the stored prefix is so short that an inner node fits in memory. It does if there is room for
    /// one. A caller over any `PREFIX_LEN` asks this before it makes the first inner node of a tree.
    pub fn fits_in_memory(&self) -> bool
        ensures value { IsTrue result → PREFIX_LEN < 2 ^ 62 }
        ensures exact { PREFIX_LEN < 2 ^ 62 → IsTrue result }
        ensures room { HasRoom self.now 1 → IsTrue result }
        ensures room_of { HasRoomOf self.now NodeType.Node4 1 → IsTrue result }
    {
        self.nodes4.fits_in_memory()
    }

    /// No arena has room for 2^64 nodes or more. The call does nothing: a caller has this from its contract.
    pub fn room_is_bounded(&self)
        ensures { (n : ℕ) → HasRoom self.now n → n < 2 ^ 64 }
    {
        self.leaves.room_is_bounded();
    }

    /// Lends the node under this name for writing.
    pub fn as_mut<N: Stored<K, V, Self>>(&mut self, ptr: NodePtr<N::Kind>) -> &mut N
        requires { IsSome (held_at self.old (record { kind = N.Kind.TYPE; slot = ptr })) }
        ensures* writes_back { sem 𝓛 (lends_node (the_row K.row V.row PREFIX_LEN.row) N.row N.with_node self.entry ptr
            result) }
        ensures value { held_at self.old (record { kind = N.Kind.TYPE; slot = ptr }) ≡ Some (N.held result.now) }
    {
        N::get_mut(self, ptr.slot())
    }

    /// Returns the key of a leaf.
    pub fn as_key_ref(&self, leaf: LeafPtr) -> &K
        requires { IsSome (held_at self.now (leaf_name leaf)) }
        ensures { (l : _) → held_at self.now (leaf_name leaf) ≡ Some (leaf_held l) → result.now ≡ l.key }
    {
        self.as_ref::<LeafNode<K, V>>(leaf).key_ref()
    }

    /// Returns the value of a leaf.
    pub fn as_value_ref(&self, leaf: LeafPtr) -> &V
        requires { IsSome (held_at self.now (leaf_name leaf)) }
        ensures { (l : _) → held_at self.now (leaf_name leaf) ≡ Some (leaf_held l) → result.now ≡ l.value }
    {
        self.as_ref::<LeafNode<K, V>>(leaf).value_ref()
    }

    /// Returns the key and the value of a leaf.
    pub fn as_key_value_ref(&self, leaf: LeafPtr) -> (&K, &V)
        requires { IsSome (held_at self.now (leaf_name leaf)) }
        ensures key { (l : _) → held_at self.now (leaf_name leaf) ≡ Some (leaf_held l) → result.0.now ≡ l.key }
        ensures value { (l : _) → held_at self.now (leaf_name leaf) ≡ Some (leaf_held l) → result.1.now ≡ l.value }
    {
        let leaf = self.as_ref::<LeafNode<K, V>>(leaf);
        (leaf.key_ref(), leaf.value_ref())
    }

    /// Lends the value of a leaf for writing.
    pub fn as_value_mut(&mut self, leaf: LeafPtr) -> &mut V
        requires { IsSome (held_at self.old (leaf_name leaf)) }
        ensures* writes_back { sem 𝓛 (lends_leaf_value K.row V.row PREFIX_LEN.row self.entry leaf result) }
        ensures value { (l : _) → held_at self.old (leaf_name leaf) ≡ Some (leaf_held l) → result.now ≡ l.value }
    {
        let (_key, value) = self.as_key_ref_value_mut(leaf);
        value
    }

    /// Lends the key of a leaf, and its value for writing.
    pub fn as_key_ref_value_mut(&mut self, leaf: LeafPtr) -> (&K, &mut V)
        requires { IsSome (held_at self.old (leaf_name leaf)) }
        ensures* writes_back { sem 𝓛 (lends_leaf_value K.row V.row PREFIX_LEN.row self.entry leaf result.1) }
        ensures key { (l : _) → held_at self.old (leaf_name leaf) ≡ Some (leaf_held l) → result.0.now ≡ l.key }
        ensures value { (l : _) → held_at self.old (leaf_name leaf) ≡ Some (leaf_held l) → result.1.now ≡ l.value }
    {
        self.leaves.node_mut(leaf.slot()).entry_mut()
    }

    // The leaf that comes before a leaf.
    pub(crate) fn previous(&self, leaf: LeafPtr) -> Option<LeafPtr>
        requires { IsSome (links_at self.now leaf) }
        ensures { (links : _) → links_at self.now leaf ≡ Some links → result ≡ links.previous }
    {
        self.leaves.node(leaf.slot()).previous()
    }

    // The leaf that comes after a leaf.
    pub(crate) fn next(&self, leaf: LeafPtr) -> Option<LeafPtr>
        requires { IsSome (links_at self.now leaf) }
        ensures { (links : _) → links_at self.now leaf ≡ Some links → result ≡ links.next }
    {
        self.leaves.node(leaf.slot()).next()
    }

    // Sets the leaf that comes before a leaf.
    pub(crate) fn set_previous(&mut self, leaf: LeafPtr, previous: Option<LeafPtr>)
        requires { IsSome (links_at self.old leaf) }
        ensures links { (was : _) → links_at self.old leaf ≡ Some was
            → WritesLinks self.old self.new leaf (record was { previous = previous }) }
        ensures room { KeepsRoom self.old self.new }
        ensures room_of { KeepsRoomOf self.old self.new }
    {
        self.leaves.node_mut(leaf.slot()).set_previous(previous)
    }

    // Sets the leaf that comes after a leaf.
    pub(crate) fn set_next(&mut self, leaf: LeafPtr, next: Option<LeafPtr>)
        requires { IsSome (links_at self.old leaf) }
        ensures links { (was : _) → links_at self.old leaf ≡ Some was
            → WritesLinks self.old self.new leaf (record was { next = next }) }
        ensures room { KeepsRoom self.old self.new }
        ensures room_of { KeepsRoomOf self.old self.new }
    {
        self.leaves.node_mut(leaf.slot()).set_next(next)
    }
}

//! Edits of the inner node under a name, whatever its kind.
ghost use Rattle.std.specs.Prelude.{◌≡◌, ◌≢◌, ◌+◌, ◌<◌, ◌^◌, length, Some, IsSome, IsOk, IfOk, OnErr, refl};
ghost use Rattle.art_nodes.specs.InnerNode as node;
ghost use Rattle.art_nodes.specs.Kind.{row_of, grown_kind, shrunk_kind, CanShrink};
ghost use Rattle.art_arena.specs.arena.Cells.{UpdatesAt};
ghost use Rattle.art_arena.specs.arena.Arena.{held_at, as_inner, inner_held, Allocates, SameNodes, HasRoom, KeepsRoom};
ghost use Rattle.art_arena.specs.arena.Arena.{HasRoomOf, KeepsRoomOf, UsesRoom, leaf_capacity};
ghost use Rattle.art_arena.specs.arena.Rooms.{FreesRoomOf, UsesRoomOf};
ghost use Rattle.art_arena.specs.arena.NodeEdits.{edited, MayEdit};

use crate::arena::NodeArena;
use crate::stored::{NodeStore, Stored};
use art_nodes::{
    ConcreteNodePtr, Header, InnerNode, InnerNode4, InnerNode16, InnerNode32, InnerNode48,
    InnerNode256, InnerNodeCommon, NodePtr, NodeType, OpaqueNodePtr, assume_proved,
};
use std::alloc::AllocError;

/// An inner node that a store keeps.
pub trait StoredInner<K, V, A: NodeStore<K, V>, const PREFIX_LEN: usize>: Stored<K, V, A>
    + InnerNodeCommon<PREFIX_LEN> {
    /// What a contract sees of it in a store is the inner node.
    ghost held_inner: { (node : Self) → Self.held node ≡ inner_held (Self.inner node) };

    /// The room is the most children that the table of kinds names.
    ghost room_in_table: { Self.room ≡ (row_of Self.Kind.TYPE).most };
}

impl<K, V, const PREFIX_LEN: usize> StoredInner<K, V, NodeArena<K, V, PREFIX_LEN>, PREFIX_LEN>
    for InnerNode4<K, V, PREFIX_LEN> {
    ghost held_inner = { λ node. refl };

    ghost room_in_table = { refl };
}

impl<K, V, const PREFIX_LEN: usize> StoredInner<K, V, NodeArena<K, V, PREFIX_LEN>, PREFIX_LEN>
    for InnerNode16<K, V, PREFIX_LEN> {
    ghost held_inner = { λ node. refl };

    ghost room_in_table = { refl };
}

impl<K, V, const PREFIX_LEN: usize> StoredInner<K, V, NodeArena<K, V, PREFIX_LEN>, PREFIX_LEN>
    for InnerNode32<K, V, PREFIX_LEN> {
    ghost held_inner = { λ node. refl };

    ghost room_in_table = { refl };
}

impl<K, V, const PREFIX_LEN: usize> StoredInner<K, V, NodeArena<K, V, PREFIX_LEN>, PREFIX_LEN>
    for InnerNode48<K, V, PREFIX_LEN> {
    ghost held_inner = { λ node. refl };

    ghost room_in_table = { refl };
}

impl<K, V, const PREFIX_LEN: usize> StoredInner<K, V, NodeArena<K, V, PREFIX_LEN>, PREFIX_LEN>
    for InnerNode256<K, V, PREFIX_LEN> {
    ghost held_inner = { λ node. refl };

    ghost room_in_table = { refl };
}

/// What is done to an inner node.
#[derive(Clone, Copy)]
pub enum NodeEdit<'a, const PREFIX_LEN: usize> {
    /// A child is stored under a byte, or in place of the one that stands there.
    Write {
        /// The byte.
        byte: u8,
        /// The child.
        child: OpaqueNodePtr,
    },
    /// The child under a byte is removed.
    Remove {
        /// The byte.
        byte: u8,
    },
    /// The node takes the prefix of this header. The children stay.
    CopyPrefix {
        /// The header.
        header: &'a Header<PREFIX_LEN>,
    },
    /// The node is removed from the arena.
    Free,
}

// Does to a node what leaves it in the arena.
fn apply<N: InnerNodeCommon<PREFIX_LEN>, const PREFIX_LEN: usize>(
    node: &mut N,
    edit: &NodeEdit<'_, PREFIX_LEN>,
)
    requires may { MayEdit N.room edit.now (N.inner node.old) }
    requires stays { edit.now ≢ NodeEdit.Free }
    ensures { Some (N.inner node.new) ≡ edited edit.now (N.inner node.old) }
{
    let _children = node.iter();
    match *edit {
        NodeEdit::Write { byte, child } => node.write_child(byte, child),
        NodeEdit::Remove { byte } => {
            node.remove_child(byte);
        }
        NodeEdit::CopyPrefix { header } => node.copy_prefix(header),
        NodeEdit::Free => {
            assume_proved(false);
            unreachable!()
        }
    }
}

// Edits the node of one kind.
fn edit_at<K, V, N, const PREFIX_LEN: usize>(
    arena: &mut NodeArena<K, V, PREFIX_LEN>,
    ptr: NodePtr<N::Kind>,
    edit: &NodeEdit<'_, PREFIX_LEN>,
)
where
    N: StoredInner<K, V, NodeArena<K, V, PREFIX_LEN>, PREFIX_LEN>,
    requires { (n : node.InnerNode)
        × (held_at arena.old (record { kind = N.Kind.TYPE; slot = ptr }) ≡ Some (inner_held n))
        × MayEdit (row_of N.Kind.TYPE).most edit.now n }
    ensures updates { (n : node.InnerNode)
        → held_at arena.old (record { kind = N.Kind.TYPE; slot = ptr }) ≡ Some (inner_held n)
        → UpdatesAt (held_at arena.old) (held_at arena.new) (record { kind = N.Kind.TYPE; slot = ptr })
        (as_inner (edited edit.now n)) }
    ensures room { KeepsRoom arena.old arena.new }
    ensures room_of { KeepsRoomOf arena.old arena.new }
    ensures frees { edit.now ≡ NodeEdit.Free → FreesRoomOf N.Kind.TYPE arena.old arena.new }
    ensures capacity { leaf_capacity arena.new ≡ leaf_capacity arena.old }
{
    if let NodeEdit::Free = *edit {
        arena.deallocate_node_ptr::<N>(ptr);
        return;
    }
    apply(arena.as_mut::<N>(ptr), edit);
}

// Stores a copy of the full node of one kind in the next larger kind. It stands out of line, so that a call has room on
// its frame for the copies of one kind alone.
#[inline(never)]
fn grow_at<K, V, N, const PREFIX_LEN: usize>(
    arena: &mut NodeArena<K, V, PREFIX_LEN>,
    ptr: NodePtr<N::Kind>,
) -> Result<OpaqueNodePtr, AllocError>
where
    N: StoredInner<K, V, NodeArena<K, V, PREFIX_LEN>, PREFIX_LEN> + InnerNode<PREFIX_LEN>,
    N::GrownNode: StoredInner<K, V, NodeArena<K, V, PREFIX_LEN>, PREFIX_LEN>,
    requires full { (n : node.InnerNode)
        × (held_at arena.old (record { kind = N.Kind.TYPE; slot = ptr }) ≡ Some (inner_held n))
        × (length n.children ≡ (row_of N.Kind.TYPE).most) }
    requires larger { IsSome (row_of N.Kind.TYPE).larger }
    ensures kind { IfOk result (λ grown. grown.kind ≡ grown_kind N.Kind.TYPE) }
    ensures ok { IfOk result (λ grown. (n : node.InnerNode)
        → held_at arena.old (record { kind = N.Kind.TYPE; slot = ptr }) ≡ Some (inner_held n)
        → Allocates arena.old arena.new grown (inner_held n)) }
    ensures err { OnErr result (SameNodes arena.old arena.new) }
    ensures succeeds { HasRoom arena.old 1 → IsOk result }
    ensures room { UsesRoom 1 arena.old arena.new }
    ensures room_of { IfOk result (λ grown. UsesRoomOf grown.kind arena.old arena.new) }
    ensures kept_room { OnErr result (KeepsRoomOf arena.old arena.new) }
{
    let copy = arena.as_ref::<N>(ptr).grow();
    Ok(arena.allocate_node_ptr(copy)?.to_opaque())
}

// Stores a copy of the node of one kind in the next smaller kind. It stands out of line, as `grow_at`.
#[inline(never)]
fn shrink_at<K, V, N, const PREFIX_LEN: usize>(
    arena: &mut NodeArena<K, V, PREFIX_LEN>,
    ptr: NodePtr<N::Kind>,
) -> Result<OpaqueNodePtr, AllocError>
where
    N: StoredInner<K, V, NodeArena<K, V, PREFIX_LEN>, PREFIX_LEN> + InnerNode<PREFIX_LEN>,
    N::ShrunkNode: StoredInner<K, V, NodeArena<K, V, PREFIX_LEN>, PREFIX_LEN>,
    requires can { (n : node.InnerNode)
        × (held_at arena.old (record { kind = N.Kind.TYPE; slot = ptr }) ≡ Some (inner_held n))
        × CanShrink N.Kind.TYPE (length n.children) }
    ensures kind { IfOk result (λ smaller. smaller.kind ≡ shrunk_kind N.Kind.TYPE) }
    ensures ok { IfOk result (λ smaller. (n : node.InnerNode)
        → held_at arena.old (record { kind = N.Kind.TYPE; slot = ptr }) ≡ Some (inner_held n)
        → Allocates arena.old arena.new smaller (inner_held n)) }
    ensures err { OnErr result (SameNodes arena.old arena.new) }
    ensures succeeds { HasRoom arena.old 1 → IsOk result }
    ensures succeeds_of { HasRoomOf arena.old (shrunk_kind N.Kind.TYPE) 1 → IsOk result }
    ensures room { UsesRoom 1 arena.old arena.new }
    ensures room_of { IfOk result (λ smaller. UsesRoomOf smaller.kind arena.old arena.new) }
    ensures kept_room { OnErr result (KeepsRoomOf arena.old arena.new) }
{
    let copy = arena.as_ref::<N>(ptr).shrink();
    Ok(arena.allocate_node_ptr(copy)?.to_opaque())
}

impl<K, V, const PREFIX_LEN: usize> NodeArena<K, V, PREFIX_LEN> {
    /// Edits the inner node under a name, whatever its kind. A child is written only if the node has room for it, or
    /// one stands under its byte.
    pub fn edit_inner(&mut self, name: OpaqueNodePtr, edit: &NodeEdit<'_, PREFIX_LEN>)
        requires may { (n : node.InnerNode) × (held_at self.old name ≡ Some (inner_held n))
            × MayEdit (row_of name.kind).most edit.now n }
        requires inner { name.kind ≢ NodeType.Leaf }
        ensures updates { (n : node.InnerNode) → held_at self.old name ≡ Some (inner_held n)
            → UpdatesAt (held_at self.old) (held_at self.new) name (as_inner (edited edit.now n)) }
        ensures room { KeepsRoom self.old self.new }
        ensures room_of { KeepsRoomOf self.old self.new }
        ensures frees { edit.now ≡ NodeEdit.Free → FreesRoomOf name.kind self.old self.new }
        ensures capacity { leaf_capacity self.new ≡ leaf_capacity self.old }
    {
        self.prefix_fits(name);
        match name.to_node_ptr() {
            ConcreteNodePtr::Node4(ptr) => {
                edit_at::<K, V, InnerNode4<K, V, PREFIX_LEN>, PREFIX_LEN>(self, ptr, edit)
            }
            ConcreteNodePtr::Node16(ptr) => {
                edit_at::<K, V, InnerNode16<K, V, PREFIX_LEN>, PREFIX_LEN>(self, ptr, edit)
            }
            ConcreteNodePtr::Node32(ptr) => {
                edit_at::<K, V, InnerNode32<K, V, PREFIX_LEN>, PREFIX_LEN>(self, ptr, edit)
            }
            ConcreteNodePtr::Node48(ptr) => {
                edit_at::<K, V, InnerNode48<K, V, PREFIX_LEN>, PREFIX_LEN>(self, ptr, edit)
            }
            ConcreteNodePtr::Node256(ptr) => {
                edit_at::<K, V, InnerNode256<K, V, PREFIX_LEN>, PREFIX_LEN>(self, ptr, edit)
            }
            ConcreteNodePtr::LeafNode(_) => {
                assume_proved(false);
                unreachable!()
            }
        }
    }

    /// Stores a copy of a full inner node in the next larger kind, and returns its name. Fails if out of memory, and
    /// nothing changes then.
    pub fn grow(&mut self, name: OpaqueNodePtr) -> Result<OpaqueNodePtr, AllocError>
        requires full { (n : node.InnerNode) × (held_at self.old name ≡ Some (inner_held n))
            × (length n.children ≡ (row_of name.kind).most) }
        requires larger { IsSome (row_of name.kind).larger }
        ensures kind { IfOk result (λ grown. (row_of name.kind).larger ≡ Some grown.kind) }
        ensures ok { IfOk result (λ grown. (n : node.InnerNode) → held_at self.old name ≡ Some (inner_held n)
            → Allocates self.old self.new grown (inner_held n)) }
        ensures err { OnErr result (SameNodes self.old self.new) }
        ensures succeeds { HasRoom self.old 1 → IsOk result }
        ensures room { UsesRoom 1 self.old self.new }
        ensures room_of { IfOk result (λ grown. UsesRoomOf grown.kind self.old self.new) }
        ensures kept_room { OnErr result (KeepsRoomOf self.old self.new) }
    {
        self.prefix_fits(name);
        match name.to_node_ptr() {
            ConcreteNodePtr::Node4(ptr) => {
                grow_at::<K, V, InnerNode4<K, V, PREFIX_LEN>, PREFIX_LEN>(self, ptr)
            }
            ConcreteNodePtr::Node16(ptr) => {
                grow_at::<K, V, InnerNode16<K, V, PREFIX_LEN>, PREFIX_LEN>(self, ptr)
            }
            ConcreteNodePtr::Node32(ptr) => {
                grow_at::<K, V, InnerNode32<K, V, PREFIX_LEN>, PREFIX_LEN>(self, ptr)
            }
            ConcreteNodePtr::Node48(ptr) => {
                grow_at::<K, V, InnerNode48<K, V, PREFIX_LEN>, PREFIX_LEN>(self, ptr)
            }
            ConcreteNodePtr::Node256(_) => unreachable!(),
            ConcreteNodePtr::LeafNode(_) => unreachable!(),
        }
    }

    /// Stores a copy of an inner node in the next smaller kind, which must have room for its children, and returns its
    /// name. Fails if out of memory, and nothing changes then.
    pub fn shrink(&mut self, name: OpaqueNodePtr) -> Result<OpaqueNodePtr, AllocError>
        requires can { (n : node.InnerNode) × (held_at self.old name ≡ Some (inner_held n))
            × CanShrink name.kind (length n.children) }
        ensures kind { IfOk result (λ smaller. (row_of name.kind).smaller ≡ Some smaller.kind) }
        ensures ok { IfOk result (λ smaller. (n : node.InnerNode) → held_at self.old name ≡ Some (inner_held n)
            → Allocates self.old self.new smaller (inner_held n)) }
        ensures err { OnErr result (SameNodes self.old self.new) }
        ensures succeeds { HasRoom self.old 1 → IsOk result }
        ensures succeeds_of { HasRoomOf self.old (shrunk_kind name.kind) 1 → IsOk result }
        ensures room { UsesRoom 1 self.old self.new }
        ensures room_of { IfOk result (λ smaller. UsesRoomOf smaller.kind self.old self.new) }
        ensures kept_room { OnErr result (KeepsRoomOf self.old self.new) }
    {
        match name.to_node_ptr() {
            ConcreteNodePtr::Node16(ptr) => {
                self.prefix_fits(name);
                shrink_at::<K, V, InnerNode16<K, V, PREFIX_LEN>, PREFIX_LEN>(self, ptr)
            }
            ConcreteNodePtr::Node32(ptr) => {
                self.prefix_fits(name);
                shrink_at::<K, V, InnerNode32<K, V, PREFIX_LEN>, PREFIX_LEN>(self, ptr)
            }
            ConcreteNodePtr::Node48(ptr) => {
                self.prefix_fits(name);
                shrink_at::<K, V, InnerNode48<K, V, PREFIX_LEN>, PREFIX_LEN>(self, ptr)
            }
            ConcreteNodePtr::Node256(ptr) => {
                self.prefix_fits(name);
                shrink_at::<K, V, InnerNode256<K, V, PREFIX_LEN>, PREFIX_LEN>(self, ptr)
            }
            ConcreteNodePtr::Node4(_) => unreachable!(),
            ConcreteNodePtr::LeafNode(_) => unreachable!(),
        }
    }

    // Where an inner node is held, the stored front of a prefix is so short that the node fits in memory. What names
    // its type over any `PREFIX_LEN` calls this before.
    fn prefix_fits(&self, name: OpaqueNodePtr)
        requires held { IsSome (held_at self.now name) }
        requires inner { name.kind ≢ NodeType.Leaf }
        ensures { PREFIX_LEN < 2 ^ 62 }
    {
        let _inner = self.inner(name);
    }
}

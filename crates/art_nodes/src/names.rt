//! Names of nodes: a kind, and a key in the slab of that kind.
ghost use Rattle.std.specs.Prelude.{◌≡◌, ◌≢◌, ◌<◌, ◌-◌, ◌%◌, ◌^◌, ◌↔◌, IsTrue, IsSome, IfSome};
ghost use Rattle.art_nodes.specs.Name as name;

use crate::hint::assume_proved;
use crate::kind::{NodeKind, NodeType};
use crate::unaligned::Unaligned;
use std::alloc::AllocError;
use std::fmt;
use std::marker::{Model, PhantomData};

// Every slab key is below it, since each is below the capacity of its slab. So one more than a key fits in a word.
const SLOTS: usize = usize::MAX;

/// The name of a node of any kind. It takes nine bytes, so that nodes of many children stay small. The slab key comes
/// first: a copy of nine bytes moves eight and then one, so a name that was just written is read in the same pieces.
#[derive(Clone, Copy, PartialEq, Eq, Hash)]
pub struct OpaqueNodePtr {
    slot: Unaligned,
    kind: NodeType,
}

impl Model for OpaqueNodePtr {
    ghost use Rattle.std.specs.Prelude.{◌<◌, ◌-◌, ◌^◌};
    ghost use Rattle.art_nodes.specs.Name.{Name};

    ghost Value = { Name };

    ghost view = { λ p. record { kind = p.kind; slot = p.slot } };

    ghost invariant = { λ p. p.slot < 2 ^ 64 - 1 };

    ghost inverse = { λ n. record { kind = n.kind; slot = n.slot } };
}

// The code of a kind in a place: 0 is left for none.
const fn code_of(kind: NodeType) -> u8
    ensures { result ≡ name.code_of kind }
{
    match kind {
        NodeType::Node4 => 1,
        NodeType::Node16 => 2,
        NodeType::Node32 => 3,
        NodeType::Node48 => 4,
        NodeType::Node256 => 5,
        NodeType::Leaf => 6,
    }
}

// The kind that has this code.
fn kind_coded(code: u8) -> NodeType
    requires { (0 < code) × (code < 7) }
    ensures { result ≡ name.kind_coded code }
{
    match code {
        1 => NodeType::Node4,
        2 => NodeType::Node16,
        3 => NodeType::Node32,
        4 => NodeType::Node48,
        5 => NodeType::Node256,
        6 => NodeType::Leaf,
        _ => {
            assume_proved(false);
            unreachable!()
        }
    }
}

impl OpaqueNodePtr {
    fn new(kind: NodeType, slot: usize) -> Self
        requires { slot < 2 ^ 64 - 1 }
        ensures { result ≡ record { kind = kind; slot = slot } }
    {
        OpaqueNodePtr {
            slot: Unaligned::new(slot),
            kind,
        }
    }

    /// Returns the kind of the node that this names.
    pub fn node_type(self) -> NodeType
        ensures { result ≡ self.kind }
    {
        self.kind
    }

    /// Returns the slab key.
    pub fn slot(self) -> usize
        ensures { result ≡ self.slot }
    {
        self.slot.get()
    }

    /// Returns the name of the node of the kind `N` with the same slab key: of the same node, if it is of that kind.
    pub fn with_kind<N: NodeKind>(self) -> NodePtr<N>
        ensures { result ≡ self.slot }
    {
        NodePtr {
            slot: self.slot.get(),
            node: PhantomData,
        }
    }

    /// Returns whether this names a node of the kind `N`.
    pub fn is<N: NodeKind>(self) -> bool
        ensures { IsTrue result ↔ (self.kind ≡ N.TYPE) }
    {
        self.node_type() == N::TYPE
    }

    /// Returns the name as one of the kind `N`, or `None` if it names a node of another kind.
    pub fn cast<N: NodeKind>(self) -> Option<NodePtr<N>>
        ensures variant { IsSome result ↔ (self.kind ≡ N.TYPE) }
        ensures slot { IfSome result (λ name. name ≡ self.slot) }
    {
        if self.is::<N>() {
            Some(self.with_kind())
        } else {
            None
        }
    }
}

impl fmt::Debug for OpaqueNodePtr {
    fn fmt<W: fmt::Write>(&self, f: &mut fmt::Formatter<W>) -> fmt::Result {
        f.debug_struct("OpaqueNodePtr")
            .field("slot", &self.slot())
            .field("kind", &self.node_type())
            .finish()
    }
}

/// What stands in the unused places of a node: the name of the first leaf.
impl Default for OpaqueNodePtr {
    ghost use Rattle.art_nodes.specs.declared.kind.NodeType.TheVariants.{Leaf};

    ghost is_default = { λ name. name ≡ record { kind = Leaf; slot = 0 } };

    fn default() -> Self {
        OpaqueNodePtr::new(NodeType::Leaf, 0)
    }
}

/// A place for a name, which may have none: the code of its kind, or zero, beside its slab key. An `Option` would take
/// a byte more.
#[derive(Clone, Copy)]
pub(crate) struct Place {
    slot: Unaligned,
    code: u8,
}

impl Model for Place {
    ghost use Rattle.std.specs.Prelude.{ℕ, Option};
    ghost use Rattle.std.proofs.Common.{ap₂};
    ghost use Rattle.art_nodes.specs.Name.{Name, IsCodedPlace, name_in_place, place_slot, place_code};
    ghost use Rattle.art_nodes.specs.lemmas.NameLaws.{place_slot-name_in_place, place_code-name_in_place};

    ghost Value = { Option Name };

    ghost view = { λ p. name_in_place p.code p.slot };

    ghost invariant = { λ p. IsCodedPlace p.code p.slot };

    ghost inverse = { λ place. record { slot = place_slot place; code = place_code place } };

    ghost inverse_ok = { λ p h. ap₂ (λ (slot code : ℕ). record { slot = slot; code = code })
        (place_slot-name_in_place p.code p.slot h) (place_code-name_in_place p.code p.slot h) };
}

impl Place {
    // With this name, or none.
    pub(crate) fn new(name: Option<OpaqueNodePtr>) -> Self
        ensures { result ≡ name }
    {
        match name {
            Some(name) => Place {
                slot: name.slot,
                code: code_of(name.kind),
            },
            None => Place {
                slot: Unaligned::new(0),
                code: 0,
            },
        }
    }

    // The name that stands here.
    pub(crate) fn get(self) -> Option<OpaqueNodePtr>
        ensures { result ≡ self }
    {
        if self.code == 0 {
            None
        } else {
            Some(OpaqueNodePtr {
                slot: self.slot,
                kind: kind_coded(self.code),
            })
        }
    }
}

/// The name of a node of one kind: its key in the slab of that kind.
pub struct NodePtr<N> {
    slot: usize,
    node: PhantomData<N>,
}

impl<N> Model for NodePtr<N> {
    ghost use Rattle.std.specs.Prelude.{ℕ, ◌<◌, ◌-◌, ◌^◌};

    ghost Value = { ℕ };

    ghost view = { λ p. p.slot };

    ghost invariant = { λ p. p.slot < 2 ^ 64 - 1 };

    ghost inverse = { λ n. record { slot = n; node = record {} } };
}

impl<N> Clone for NodePtr<N> {
    ghost use Rattle.std.specs.Prelude.{◌≡◌, ⊤};

    ghost is_clone = { λ original copy. copy ≡ original };

    ghost is_infallible = { λ _. ⊤ };

    fn clone(&self) -> Result<Self, AllocError> {
        Ok(NodePtr {
            slot: self.slot,
            node: PhantomData,
        })
    }
}

impl<N> Copy for NodePtr<N> {}

impl<N: NodeKind> NodePtr<N> {
    /// Returns the name of the node of this kind with that slab key, whether one is held there or not. Each slab key is
    /// below 2^64 - 1, which is none: it counts as 0.
    pub fn from_slot(slot: usize) -> Self
        ensures { result ≡ slot % (2 ^ 64 - 1) }
    {
        NodePtr {
            slot: slot % SLOTS,
            node: PhantomData,
        }
    }

    /// Returns the slab key.
    pub fn slot(self) -> usize
        ensures { result ≡ self }
    {
        let NodePtr { slot, node: _ } = self;
        slot
    }

    // The slab key, with the bound on all of them.
    pub(crate) fn bounded_slot(self) -> usize
        ensures value { result ≡ self }
        ensures below { result < 2 ^ 64 - 1 }
    {
        self.slot
    }

    /// Returns this name with its kind as a value.
    pub fn to_opaque(self) -> OpaqueNodePtr
        ensures { result ≡ record { kind = N.TYPE; slot = self } }
    {
        OpaqueNodePtr::new(N::TYPE, self.slot)
    }
}

impl<N: NodeKind> PartialEq for NodePtr<N> {
    ghost use Rattle.std.specs.Prelude.{◌==◌};
    ghost use Rattle.std.proofs.Common.{rules};
    ghost use Rattle.std.specs.Cmp.Rules.{comparing};

    ghost eq = { ◌==◌ };

    ghost laws = { Prim.search (comparing, rules) };

    fn eq(&self, other: &Self) -> bool {
        self.slot == other.slot
    }
}

impl<N: NodeKind> Eq for NodePtr<N> {
    ghost use Rattle.std.proofs.Common.{rules};
    ghost use Rattle.std.specs.Cmp.Rules.{comparing};

    ghost laws = { Prim.search (comparing, rules) };
}

impl<N: NodeKind> fmt::Debug for NodePtr<N> {
    fn fmt<W: fmt::Write>(&self, f: &mut fmt::Formatter<W>) -> fmt::Result {
        let kind = N::TYPE;
        let slot = self.slot;
        write!(f, "{kind:?} {slot}")
    }
}

//! What is done at the nodes of a tree, one after the other.
ghost use Rattle.std.specs.Prelude.{◌≡◌, ◌≢◌, List, IsSome};
ghost use Rattle.std.specs.List.{AllByRecursion};
ghost use Rattle.art_nodes.specs.InnerNode.{names_of};
ghost use Rattle.art_nodes.specs.Name.{Name};
ghost use Rattle.art_nodes.specs.declared.leaf.LeafNode.{LeafNode};
ghost use Rattle.art_arena.specs.arena.Arena.{Arena, held_at};
ghost use Rattle.art_walks.specs.Visits.{AreVisited, AreVisitedAfter, IsVisited, children_in};

use art_arena::NodeArena;
use art_nodes::{ChildIter, KindLeaf, LeafNode, NodeType, OpaqueNodePtr};

/// What is done at each node that is visited, what comes of it, and how that of several nodes is combined.
///
/// A visit of an inner node goes no further by itself. The nodes below it are visited if `super_visit_with` is called
/// on its name. So a visitor of a whole tree keeps the names of the inner nodes that it met, and its user calls that on
/// each in turn. Nothing here recurses, however long the keys are, and nothing allocates.
pub trait Visitor<K, V, const PREFIX_LEN: usize>: Sized {
    /// What comes of a visit.
    type Output;

    /// What may come if there is nothing to visit.
    ghost default_gives: { Self → Self.Output → Type 0 };

    /// What may come of two visits, the earlier one first.
    ghost combine_gives: { Self → Self.Output → Self.Output → Self.Output → Type 0 };

    /// What may come of a visit of the inner node under a name, and how it leaves the visitor.
    ghost inner_gives: { Self → Arena K V → Name → Self → Self.Output → Type 0 };

    /// What may come of a visit of a leaf, and how it leaves the visitor.
    ghost leaf_gives: { Self → LeafNode K V → Self → Self.Output → Type 0 };

    /// Returns what comes if there is nothing to visit.
    fn default_output(&self) -> Self::Output
        ensures { default_gives self.now result };

    /// Returns what comes of two visits, the earlier one first.
    fn combine_output(&self, earlier: Self::Output, later: Self::Output) -> Self::Output
        ensures { combine_gives self.now earlier later result };

    /// Visits the inner node under a name.
    fn visit_inner_node(
        &mut self,
        arena: &NodeArena<K, V, PREFIX_LEN>,
        node: OpaqueNodePtr,
    ) -> Self::Output
        requires held { IsSome (held_at arena.now node) }
        requires inner { node.kind ≢ NodeType.Leaf }
        ensures { inner_gives self.old arena.now node self.new result };

    /// Visits a leaf.
    fn visit_leaf(&mut self, leaf: &LeafNode<K, V>) -> Self::Output
        ensures { leaf_gives self.old leaf.now self.new result };
}

/// What can be visited in an arena. It has to stand there, and for a visit of its children so have they.
pub trait Visitable<K, V, const PREFIX_LEN: usize>: Sized {
    /// The name under which it stands.
    ghost name: { Self → Name };

    /// Lets a visitor visit the node, by its call for a leaf or for an inner node.
    fn visit_with<W: Visitor<K, V, PREFIX_LEN>>(
        self,
        arena: &NodeArena<K, V, PREFIX_LEN>,
        visitor: &mut W,
    ) -> W::Output
        requires { IsSome (held_at arena.now (name self)) }
        ensures { IsVisited W.leaf_gives W.inner_gives arena.now (name self) visitor.old visitor.new result };

    /// Lets a visitor visit the children of the node in ascending order, each once, and combines what comes of them. If
    /// it has none, as a leaf, it returns the default.
    fn super_visit_with<W: Visitor<K, V, PREFIX_LEN>>(
        self,
        arena: &NodeArena<K, V, PREFIX_LEN>,
        visitor: &mut W,
    ) -> W::Output
        requires held { IsSome (held_at arena.now (name self)) }
        requires children { AllByRecursion (λ n. IsSome (held_at arena.now n))
            (children_in (held_at arena.now (name self))) }
        ensures { AreVisited W.leaf_gives W.inner_gives arena.now W.default_gives W.combine_gives
            (children_in (held_at arena.now (name self))) visitor.old visitor.new result };
}

impl<K, V, const PREFIX_LEN: usize> Visitable<K, V, PREFIX_LEN> for OpaqueNodePtr {
    ghost name = { λ n. n };

    fn visit_with<W: Visitor<K, V, PREFIX_LEN>>(
        self,
        arena: &NodeArena<K, V, PREFIX_LEN>,
        visitor: &mut W,
    ) -> W::Output {
        visit::<K, V, W, PREFIX_LEN>(arena, self, visitor)
    }

    fn super_visit_with<W: Visitor<K, V, PREFIX_LEN>>(
        self,
        arena: &NodeArena<K, V, PREFIX_LEN>,
        visitor: &mut W,
    ) -> W::Output {
        if self.is::<KindLeaf>() {
            return visitor.default_output();
        }
        visit_children::<K, V, W, PREFIX_LEN>(arena, arena.inner(self).children(), visitor)
    }
}

// Visits the node under a name.
fn visit<K, V, W: Visitor<K, V, PREFIX_LEN>, const PREFIX_LEN: usize>(
    arena: &NodeArena<K, V, PREFIX_LEN>,
    name: OpaqueNodePtr,
    visitor: &mut W,
) -> W::Output
    requires { IsSome (held_at arena.now name) }
    ensures { IsVisited W.leaf_gives W.inner_gives arena.now name visitor.old visitor.new result }
{
    match name.cast::<KindLeaf>() {
        Some(leaf) => visitor.visit_leaf(arena.as_ref::<LeafNode<K, V>>(leaf)),
        None => {
            let _inner = arena.inner(name);
            visitor.visit_inner_node(arena, name)
        }
    }
}

// Visits these children in turn.
fn visit_children<K, V, W: Visitor<K, V, PREFIX_LEN>, const PREFIX_LEN: usize>(
    arena: &NodeArena<K, V, PREFIX_LEN>,
    children: ChildIter<'_>,
    visitor: &mut W,
) -> W::Output
    requires { AllByRecursion (λ n. IsSome (held_at arena.now n)) (names_of children) }
    ensures { AreVisited W.leaf_gives W.inner_gives arena.now W.default_gives W.combine_gives (names_of children.entry)
        visitor.old visitor.new result }
{
    let mut left = children;
    match left.next() {
        None => visitor.default_output(),
        Some((_, first)) => {
            let output = visit::<K, V, W, PREFIX_LEN>(arena, first, visitor);
            visit_others::<K, V, W, PREFIX_LEN>(arena, left, visitor, output)
        }
    }
}

// Visits these children in turn, and combines what comes of them with what came before.
fn visit_others<K, V, W: Visitor<K, V, PREFIX_LEN>, const PREFIX_LEN: usize>(
    arena: &NodeArena<K, V, PREFIX_LEN>,
    children: ChildIter<'_>,
    visitor: &mut W,
    before: W::Output,
) -> W::Output
    requires { AllByRecursion (λ n. IsSome (held_at arena.now n)) (names_of children) }
    ensures { AreVisitedAfter W.leaf_gives W.inner_gives arena.now W.default_gives W.combine_gives
        (names_of children.entry) visitor.old before visitor.new result }
{
    let mut output = before;
    let mut left = children;
    while let Some((_, child)) = left.next() {
        let later = visit::<K, V, W, PREFIX_LEN>(arena, child, visitor);
        output = visitor.combine_output(output, later);
    }
    output
}

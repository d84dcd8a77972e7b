//! Replays commands on one inner node, which grows and shrinks from kind to kind as a tree's nodes do. It returns what
//! one finite map from byte to name would, whichever kind holds the children: `AreChildAnswers` in `specs/Replay.antt`.
ghost use Rattle.std.specs.Prelude.{◌≡◌, [], length, IfOk};
ghost use Rattle.art_nodes.specs.InnerNode.{child_at, with_child, without_child};
ghost use Rattle.art_nodes.specs.Replay.{IsChildAnswer, AreChildAnswers, children_after, child_under};
ghost use Rattle.art_nodes.specs.declared.replaying.ChildAnswer.TheVariants.{Child};
ghost use Rattle.art_nodes.specs.inner.Replayed.{replayed_children};

use crate::child_iter::{ChildIter, are_valid_child_bounds};
use crate::conversions::{InnerNode4, InnerNode16, InnerNode32, InnerNode48, InnerNode256};
use crate::inner_node::{InnerNode, InnerNodeCommon, InnerNodeInit};
use crate::kind::{InnerKind, NodeKind};
use crate::names::OpaqueNodePtr;
use std::alloc::{AllocError, Global};
use std::ops::Bound;

/// What is done to the node.
#[derive(Clone, Copy)]
pub enum ChildCommand {
    /// Stores a child under a byte, in place of one that stands there.
    Write(u8, OpaqueNodePtr),
    /// Removes the child under a byte.
    Remove(u8),
    /// Looks for the child under a byte.
    Lookup(u8),
    /// Looks for the child under the smallest byte.
    Min,
    /// Looks for the child under the greatest byte.
    Max,
    /// Lists the children whose bytes lie between two bounds.
    Range(Bound<u8>, Bound<u8>),
}

/// What a command returns.
#[derive(Drop)]
pub enum ChildAnswer {
    /// The child that a look-up, the smallest or the greatest byte finds, with its byte. For a write or a removal, the
    /// child that stood there.
    Child(Option<(u8, OpaqueNodePtr)>),
    /// The children of a range, by ascending byte.
    Children(Vec<(u8, OpaqueNodePtr)>),
    /// The bounds of a range are none that may be asked for.
    InvalidBounds,
}

// The node, in whichever kind it is. It has no prefix, and its keys and values are of no matter.
#[derive(Drop)]
enum ReplayedNode {
    Node4(InnerNode4<(), (), 0>),
    Node16(InnerNode16<(), (), 0>),
    Node32(InnerNode32<(), (), 0>),
    Node48(InnerNode48<(), (), 0>),
    Node256(InnerNode256<(), (), 0>),
}

// A node that a replay may work on.
trait Replayed: InnerNode<0> {
    // The node, in whichever kind it is.
    fn in_its_kind(self) -> ReplayedNode
        ensures { replayed_children result ≡ (Self.inner self).children };
}

impl Replayed for InnerNode4<(), (), 0> {
    fn in_its_kind(self) -> ReplayedNode {
        ReplayedNode::Node4(self)
    }
}

impl Replayed for InnerNode16<(), (), 0> {
    fn in_its_kind(self) -> ReplayedNode {
        ReplayedNode::Node16(self)
    }
}

impl Replayed for InnerNode32<(), (), 0> {
    fn in_its_kind(self) -> ReplayedNode {
        ReplayedNode::Node32(self)
    }
}

impl Replayed for InnerNode48<(), (), 0> {
    fn in_its_kind(self) -> ReplayedNode {
        ReplayedNode::Node48(self)
    }
}

impl Replayed for InnerNode256<(), (), 0> {
    fn in_its_kind(self) -> ReplayedNode {
        ReplayedNode::Node256(self)
    }
}

// The node with a child under this byte, in the next larger kind where there is no room for it.
fn written<N: Replayed>(node: N, byte: u8, name: OpaqueNodePtr) -> ReplayedNode
where
    N::GrownNode: Replayed,
    N::Kind: InnerKind,
    ensures { replayed_children result ≡ with_child (N.inner node).children byte name }
{
    let mut node = node;
    if !node.is_full() || node.lookup_child(byte).is_some() {
        node.write_child(byte, name);
        return node.in_its_kind();
    }
    let _children = node.iter();
    let mut larger = node.grow();
    larger.write_child(byte, name);
    larger.in_its_kind()
}

// The node without the child under this byte, in the next smaller kind where that has room for the others.
fn removed<N: Replayed>(node: N, byte: u8) -> ReplayedNode
where
    N::ShrunkNode: Replayed,
    N::Kind: InnerKind,
    ensures { replayed_children result ≡ without_child (N.inner node).children byte }
{
    let mut node = node;
    node.remove_child(byte);
    if N::Kind::TYPE.should_shrink_inner_node(node.iter().len()) {
        node.shrink().in_its_kind()
    } else {
        node.in_its_kind()
    }
}

// The child under this byte, with the byte.
fn found<N: InnerNodeCommon<0>>(node: &N, byte: u8) -> ChildAnswer
    ensures { result ≡ Child (child_under byte (child_at (N.inner node.now).children byte)) }
{
    match node.lookup_child(byte) {
        Some(name) => ChildAnswer::Child(Some((byte, name))),
        None => ChildAnswer::Child(None),
    }
}

// These children in a list.
fn listed(alloc: Global, children: ChildIter<'_>) -> Result<Vec<(u8, OpaqueNodePtr)>, AllocError>
    ensures { IfOk result (λ all. all.items ≡ children.entry) }
{
    let mut children = children;
    let mut all = Vec::new(alloc);
    while let Some(child) = children.next() {
        all.push(child)?;
    }
    Ok(all)
}

// What the command answers on this node.
fn answer_to<N: InnerNodeCommon<0>>(
    node: &N,
    alloc: Global,
    command: &ChildCommand,
) -> Result<ChildAnswer, AllocError>
    ensures { IfOk result (λ answer. IsChildAnswer (N.inner node.now).children command.now answer) }
{
    match *command {
        ChildCommand::Write(byte, _) => Ok(found(node, byte)),
        ChildCommand::Remove(byte) => Ok(found(node, byte)),
        ChildCommand::Lookup(byte) => Ok(found(node, byte)),
        ChildCommand::Min => Ok(ChildAnswer::Child(node.min())),
        ChildCommand::Max => Ok(ChildAnswer::Child(node.max())),
        ChildCommand::Range(start, end) => {
            if are_valid_child_bounds(start, end) {
                Ok(ChildAnswer::Children(listed(alloc, node.range(start, end))?))
            } else {
                Ok(ChildAnswer::InvalidBounds)
            }
        }
    }
}

// The node after the command.
fn node_after<N: Replayed>(node: N, command: &ChildCommand) -> ReplayedNode
where
    N::GrownNode: Replayed,
    N::ShrunkNode: Replayed,
    N::Kind: InnerKind,
    ensures { replayed_children result ≡ children_after (N.inner node).children command.now }
{
    match *command {
        ChildCommand::Write(byte, name) => written(node, byte, name),
        ChildCommand::Remove(byte) => removed(node, byte),
        ChildCommand::Lookup(_) => node.in_its_kind(),
        ChildCommand::Min => node.in_its_kind(),
        ChildCommand::Max => node.in_its_kind(),
        ChildCommand::Range(_, _) => node.in_its_kind(),
    }
}

// What a command answers, and the node after it.
#[derive(Drop)]
struct Reply {
    answer: ChildAnswer,
    node: ReplayedNode,
}

// What the command answers on this node, and the node after it.
fn execute<N: Replayed>(node: N, alloc: Global, command: &ChildCommand) -> Result<Reply, AllocError>
where
    N::GrownNode: Replayed,
    N::ShrunkNode: Replayed,
    N::Kind: InnerKind,
    ensures answer { IfOk result (λ it. IsChildAnswer (N.inner node).children command.now it.answer) }
    ensures after { IfOk result
        (λ it. replayed_children it.node ≡ children_after (N.inner node).children command.now) }
{
    let answer = answer_to(&node, alloc, command)?;
    let node = node_after(node, command);
    Ok(Reply { answer, node })
}

impl ReplayedNode {
    // The smallest node, with no child.
    fn empty() -> Self
        ensures { replayed_children result ≡ [] }
    {
        ReplayedNode::Node4(InnerNode4::from_prefix(&[], 0))
    }

    // What the command answers, and the node after it.
    fn execute(self, alloc: Global, command: &ChildCommand) -> Result<Reply, AllocError>
        ensures answer { IfOk result (λ it. IsChildAnswer (replayed_children self) command.now it.answer) }
        ensures after { IfOk result
            (λ it. replayed_children it.node ≡ children_after (replayed_children self) command.now) }
    {
        match self {
            ReplayedNode::Node4(node) => execute(node, alloc, command),
            ReplayedNode::Node16(node) => execute(node, alloc, command),
            ReplayedNode::Node32(node) => execute(node, alloc, command),
            ReplayedNode::Node48(node) => execute(node, alloc, command),
            ReplayedNode::Node256(node) => execute(node, alloc, command),
        }
    }
}

/// Carries out the commands one after the other, on a node of the smallest kind with no child, and returns what each
/// gives. A write and a removal give the child that stood there. The names are the caller's, and nothing looks at what
/// they name.
///
/// The node grows when it is full and shrinks when `should_shrink_inner_node` says so, which no result shows. Fails
/// only if there is no memory for the results.
pub fn replay(alloc: Global, commands: &[ChildCommand]) -> Result<Vec<ChildAnswer>, AllocError>
    ensures { IfOk result (λ answers. AreChildAnswers [] commands.now answers.items) }
{
    let mut node = ReplayedNode::empty();
    let mut answers = Vec::new(alloc);
    for command in commands {
        let reply = node.execute(alloc, command)?;
        answers.push(reply.answer)?;
        node = reply.node;
    }
    Ok(answers)
}

//! A caller of art_nodes, which its README.md shows.

ghost use Rattle.std.specs.Prelude.{◌≡◌, ◌<◌, ◌⊎◌, length, IsSome};
ghost use Rattle.art_nodes.specs.InnerNode.{child_at, with_child, with_children};

use art_nodes::{InnerNodeCommon, OpaqueNodePtr};

/// Stores a child where there is room or one stands, and tells the one that stood there.
pub fn exchange<N: InnerNodeCommon<PREFIX_LEN>, const PREFIX_LEN: usize>(
    node: &mut N,
    byte: u8,
    name: OpaqueNodePtr,
) -> Option<OpaqueNodePtr>
    requires { (length (N.inner node.old).children < N.room) ⊎ IsSome (child_at (N.inner node.old).children byte) }
    ensures value { result ≡ child_at (N.inner node.old).children byte }
    ensures rest { N.inner node.new
        ≡ with_children (N.inner node.old) (with_child (N.inner node.old).children byte name) }
{
    let old = node.lookup_child(byte);
    node.write_child(byte, name);
    old
}

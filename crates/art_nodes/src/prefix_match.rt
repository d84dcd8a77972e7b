//! What a node's own prefix tells of a key, without reading any other node.
ghost use Rattle.std.specs.Prelude.{◌≡◌, ◌≤◌, length};
ghost use Rattle.art_nodes.specs.PrefixMatch.{agreeing};

use crate::kind::KindLeaf;
use crate::names::NodePtr;
use std::cmp::Ordering;

/// The whole prefix agrees with the key's bytes, as far as the match looked.
#[derive(Clone, Copy, PartialEq, Eq)]
pub struct PrefixMatch {
    /// How many bytes agree: the length of the prefix.
    pub matched_bytes: usize,
}

/// The whole prefix may agree with the key's bytes.
#[derive(Clone, Copy, PartialEq, Eq)]
pub struct AttemptOptimisticPrefixMatch {
    /// How many bytes count as agreeing: the length of the prefix.
    pub matched_bytes: usize,
    /// Whether they count by length alone, without a look at the bytes.
    pub any_implicit_bytes: bool,
}

/// The prefix is longer than what is left of the key.
#[derive(Clone, Copy, PartialEq, Eq)]
pub struct OptimisticMismatch {
    /// How many bytes count as agreeing: all that is left of the key.
    pub matched_bytes: usize,
}

/// The key's bytes leave the prefix.
#[derive(Clone, Copy, PartialEq, Eq)]
pub struct PessimisticMismatch {
    /// How many bytes agree before that.
    pub matched_bytes: usize,
}

/// The key's bytes leave the whole prefix, or end inside it.
#[derive(Clone, Copy, PartialEq, Eq, Debug)]
pub struct ExplicitMismatch {
    /// How many bytes agree before that.
    pub matched_bytes: usize,
    /// How the node's prefix compares with the key's bytes there. It is never `Equal`, and `Greater` if the key ends
    /// inside the prefix.
    pub node_prefix_comparison_to_search_key_segment: Ordering,
}

/// The whole prefix of a node, lent from where it stands.
#[derive(Clone, Copy)]
pub struct NodePrefix<'a> {
    /// The bytes of the prefix.
    pub prefix: &'a [u8],
    /// The name of the leaf whose key lends them, or `None` if the header does.
    pub leaf: Option<NodePtr<KindLeaf>>,
}

impl From<OptimisticMismatch> for PessimisticMismatch {
    ghost from_gives = { λ mismatch new. new.matched_bytes ≡ mismatch.matched_bytes };

    fn from(mismatch: OptimisticMismatch) -> Self {
        PessimisticMismatch {
            matched_bytes: mismatch.matched_bytes,
        }
    }
}

// So many bytes are compared at once, as long as so many agree.
const PAGE: usize = 256;

// So many are, after those.
const WORD: usize = 8;

/// Returns how many bytes agree from the first on: the length of the longest common prefix.
#[tactic(auto, using(crate::proofs::PrefixLemmas::agreements))]
pub fn count_agreeing(prefix: &[u8], rest: &[u8]) -> usize
    ensures value { result ≡ agreeing prefix.now rest.now }
    ensures within { result ≤ length prefix.now }
{
    let mut at = 0;
    'pages: while at + PAGE <= prefix.len()
        && at + PAGE <= rest.len()
        && prefix[at..at + PAGE] == rest[at..at + PAGE]
    {
        at += PAGE;
    }
    'words: while at + WORD <= prefix.len()
        && at + WORD <= rest.len()
        && prefix[at..at + WORD] == rest[at..at + WORD]
    {
        at += WORD;
    }
    'bytes: while at < prefix.len() && at < rest.len() && prefix[at] == rest[at] {
        at += 1;
    }
    at
}

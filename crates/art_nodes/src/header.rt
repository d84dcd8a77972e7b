//! The header of an inner node: the number of its children, and its prefix.
ghost use Rattle.std.specs.Prelude.{◌≡◌, ◌≢◌, ◌↔◌, ◌+◌, ◌-◌, ◌<◌, ◌≤◌, ◌^◌, ◌⊎◌, ◌++◌, [], length, take, drop, min};
ghost use Rattle.std.specs.Prelude.{IsTrue};
ghost use Rattle.art_nodes.specs.Header.{front_of, header_of, with_stored_prefix, IsHeader};

use crate::leaf::LeafNode;
use art_bytes::AsBytes;
use std::alloc::AllocError;
use std::fmt;
use std::marker::Model;

/// How many children an inner node has, how long its prefix is, and the first bytes of the prefix: at most `PREFIX_LEN`
/// of them are stored.
#[derive(Drop)]
pub struct Header<const PREFIX_LEN: usize> {
    prefix_len: usize,
    num_children: u16,
    prefix: [u8; PREFIX_LEN],
}

impl<const PREFIX_LEN: usize> Model for Header<PREFIX_LEN> {
    ghost use Rattle.std.specs.Prelude.{◌≡◌, ◌≤◌, length, take};
    ghost use Rattle.art_nodes.specs.Header.{Header};

    ghost Value = { Header };

    ghost view = { λ h. record {
      num_children = h.num_children;
      prefix_len = h.prefix_len;
      stored = take h.prefix_len h.prefix;
    } };

    ghost invariant = { λ h. (h.num_children ≤ 256) × (length h.prefix ≡ PREFIX_LEN) };
}

// Writes these bytes into the array from this place on.
fn copy_in(array: &mut [u8], at: usize, bytes: &[u8])
    requires { at + length bytes.now ≤ length array.old }
    ensures { array.new ≡ take at array.old ++ bytes.now ++ drop (at + length bytes.now) array.old }
{
    let end = at + bytes.len();
    array[at..end].copy_from_slice(bytes);
}

impl<const PREFIX_LEN: usize> Header<PREFIX_LEN> {
    /// Makes a header of no children, whose prefix is the first `len` bytes of these. The bytes must cover what is
    /// stored: the first `PREFIX_LEN` of the prefix.
    pub fn new(bytes: &[u8], len: usize) -> Self
        requires { min len PREFIX_LEN ≤ length bytes.now }
        ensures { result ≡ header_of PREFIX_LEN bytes.now len }
    {
        let mut prefix = [0; PREFIX_LEN];
        let kept = len.min(PREFIX_LEN);
        copy_in(&mut prefix, 0, &bytes[..kept]);
        Header {
            prefix_len: len,
            num_children: 0,
            prefix,
        }
    }

    /// Returns the bytes of the prefix that are stored: all of it if it has at most `PREFIX_LEN` bytes.
    pub fn read_prefix(&self) -> &[u8]
        ensures { result.now ≡ self.now.stored }
    {
        &self.prefix[..self.capped_prefix_len()]
    }

    /// Returns the number of bytes of the prefix.
    pub fn prefix_len(&self) -> usize
        ensures { result ≡ self.now.prefix_len }
    {
        self.prefix_len
    }

    /// Returns the number of bytes of the prefix that are stored.
    pub fn capped_prefix_len(&self) -> usize
        ensures value { result ≡ min self.now.prefix_len PREFIX_LEN }
        ensures stored { result ≡ length self.now.stored }
    {
        self.prefix_len.min(PREFIX_LEN)
    }

    /// Returns the number of children.
    pub fn num_children(&self) -> usize
        ensures value { result ≡ self.now.num_children }
        ensures is_header { IsHeader PREFIX_LEN self.now }
    {
        usize::from(self.num_children)
    }

    /// Counts one child more.
    pub fn inc_num_children(&mut self)
        requires { self.old.num_children < 256 }
        ensures { self.new ≡ record self.old { num_children = self.old.num_children + 1 } }
    {
        self.num_children += 1;
    }

    /// Counts one child less.
    pub fn dec_num_children(&mut self)
        requires { 0 < self.old.num_children }
        ensures { self.new ≡ record self.old { num_children = self.old.num_children - 1 } }
    {
        self.num_children -= 1;
    }

    /// Makes the prefix empty.
    pub fn clear_prefix(&mut self)
        ensures { self.new ≡ with_stored_prefix 0 [] self.old }
    {
        self.prefix_len = 0;
    }

    /// Appends the first `len` bytes of these to the prefix. The bytes must cover what is then stored after the bytes
    /// that are stored already.
    pub fn push_prefix(&mut self, bytes: &[u8], len: usize)
        requires covers { min (self.old.prefix_len + len) PREFIX_LEN ≤ length self.old.stored + length bytes.now }
        requires fits { self.old.prefix_len + len < 2 ^ 64 }
        ensures { self.new ≡ with_stored_prefix (self.old.prefix_len + len)
            (take PREFIX_LEN (self.old.stored ++ take len bytes.now)) self.old }
    {
        let at = self.prefix_len.min(PREFIX_LEN);
        let kept = len.min(PREFIX_LEN - at);
        copy_in(&mut self.prefix, at, &bytes[..kept]);
        self.prefix_len += len;
    }

    /// Removes the first `n` bytes of the prefix, and refills what is stored from the key of a leaf below the node,
    /// which stands at this depth. The key must cover what is then stored.
    pub fn ltrim_by_with_leaf<K: AsBytes, V>(
        &mut self,
        n: usize,
        depth: usize,
        leaf: &LeafNode<K, V>,
    )
        requires within { n ≤ self.old.prefix_len }
        requires covers { depth + n + min (self.old.prefix_len - n) PREFIX_LEN ≤ length (K.bytes leaf.now.key) }
        ensures { let len = self.old.prefix_len - n in let rest = drop (depth + n) (K.bytes leaf.now.key) in
            self.new ≡ with_stored_prefix len (front_of PREFIX_LEN rest len) self.old }
    {
        let key = leaf.key_ref().as_bytes();
        let len = self.prefix_len - n;
        let kept = len.min(PREFIX_LEN);
        let rest = &key[depth + n..];
        copy_in(&mut self.prefix, 0, &rest[..kept]);
        self.prefix_len = len;
    }

    /// Removes the first `n` bytes of the prefix, which must be wholly stored, or `n` be 0.
    pub fn ltrim_by(&mut self, n: usize)
        requires within { n ≤ self.old.prefix_len }
        requires stored { (self.old.prefix_len ≤ PREFIX_LEN) ⊎ (n ≡ 0) }
        ensures { self.new ≡ with_stored_prefix (self.old.prefix_len - n) (drop n self.old.stored) self.old }
    {
        if n == 0 {
            return;
        }
        let len = self.prefix_len;
        self.prefix.copy_within(n..len, 0);
        self.prefix_len = len - n;
    }
}

impl<const PREFIX_LEN: usize> Header<PREFIX_LEN> {
    /// Returns a header of no children with this prefix.
    pub fn without_children(&self) -> Self
        ensures { result ≡ record self.now { num_children = 0 } }
    {
        let prefix = self.prefix;
        Header {
            prefix_len: self.prefix_len,
            num_children: 0,
            prefix,
        }
    }

    /// Takes the prefix of another header, and keeps its own count.
    pub fn copy_prefix(&mut self, other: &Self)
        ensures { self.new ≡ record other.now { num_children = self.old.num_children } }
    {
        self.prefix_len = other.prefix_len;
        self.prefix = other.prefix;
    }
}

impl<const PREFIX_LEN: usize> Clone for Header<PREFIX_LEN> {
    ghost use Rattle.std.specs.Prelude.{⊤};

    ghost is_clone = { λ original copy. copy ≡ original };

    ghost is_infallible = { λ _. ⊤ };

    fn clone(&self) -> Result<Self, AllocError> {
        Ok(Header {
            prefix_len: self.prefix_len,
            num_children: self.num_children,
            prefix: self.prefix,
        })
    }
}

impl<const PREFIX_LEN: usize> PartialEq for Header<PREFIX_LEN> {
    ghost use Rattle.std.specs.Prelude.{◌==◌};
    ghost use Rattle.std.specs.Ordering.{on, eq_of_both};
    ghost use Rattle.std.specs.Cmp.Lexicographic.{pointwise};
    ghost use Rattle.std.proofs.Common.{rules};
    ghost use Rattle.std.specs.Cmp.Rules.{comparing};

    ghost eq = { eq_of_both (on (λ h. h.num_children) ◌==◌)
        (eq_of_both (on (λ h. h.prefix_len) ◌==◌) (on (λ h. h.stored) (pointwise ◌==◌))) };

    ghost laws = { Prim.search (comparing, rules) depth 9 };

    fn eq(&self, other: &Self) -> bool {
        self.num_children == other.num_children
            && self.prefix_len == other.prefix_len
            && self.read_prefix() == other.read_prefix()
    }
}

impl<const PREFIX_LEN: usize> Eq for Header<PREFIX_LEN> {
    ghost use Rattle.std.proofs.Common.{rules};
    ghost use Rattle.std.specs.Cmp.Rules.{comparing};

    ghost laws = { Prim.search (comparing, rules) depth 9 };
}

impl<const PREFIX_LEN: usize> fmt::Debug for Header<PREFIX_LEN> {
    fn fmt<W: fmt::Write>(&self, f: &mut fmt::Formatter<W>) -> fmt::Result {
        let num_children = self.num_children;
        let prefix_len = self.prefix_len;
        let stored = self.read_prefix();
        write!(
            f,
            "Header {{ num_children: {num_children}, prefix_len: {prefix_len}, stored: {stored:?} }}"
        )
    }
}

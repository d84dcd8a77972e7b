//! An iterator over the keys of a set that shows the next one.
ghost use Rattle.std.specs.Prelude.{◌≡◌, ◌==◌, ⊤, drop, length};
ghost use Rattle.std.specs.Map.Iter.{TakesFirst, deref};

use crate::iterators::Iter;
use art_arena::NodeArena;
use art_bytes::AsBytes;
use art_walks::Keys;
use std::alloc::AllocError;
use std::marker::Model;

/// The keys of a set that are still to come, in order. A contract sees it as the list of them.
#[derive(Drop)]
pub(crate) struct Peeked<'a, K, const PREFIX_LEN: usize, M: 'a = NodeArena<K, (), PREFIX_LEN>> {
    head: Option<&'a K>,
    rest: Keys<'a, K, (), PREFIX_LEN, M>,
}

impl<'a, K, const PREFIX_LEN: usize, M: 'a> Model for Peeked<'a, K, PREFIX_LEN, M> {
    ghost use Rattle.std.specs.Prelude.{◌≡◌, List, [], IfNone};
    ghost use Rattle.std.specs.Option.{option_copied};
    ghost use Rattle.std.specs.List.{cons_option};

    ghost Value = { List K };

    ghost view = { λ it. cons_option (option_copied it.head) it.rest };

    ghost invariant = { λ it. IfNone it.head (it.rest ≡ []) };
}

impl<'a, K: AsBytes, const PREFIX_LEN: usize> Peeked<'a, K, PREFIX_LEN> {
    pub(crate) fn new(mut rest: Iter<'a, K, PREFIX_LEN>) -> Self
        ensures { result ≡ rest.entry }
    {
        let head = rest.next();
        Peeked { head, rest }
    }

    // The next key, if there is one.
    pub(super) fn peek(&self) -> Option<&'a K>
        ensures { TakesFirst deref self.now result (drop 1 self.now) }
    {
        self.head
    }

    // Whether no key is left.
    pub(super) fn is_empty(&self) -> bool
        ensures { result ≡ (length self.now == 0) }
    {
        self.head.is_none()
    }

    // Passes the next key.
    #[inline]
    pub(super) fn advance(&mut self)
        ensures { self.new ≡ drop 1 self.old }
    {
        self.head = self.rest.next();
    }
}

impl<'a, K, const PREFIX_LEN: usize> Clone for Peeked<'a, K, PREFIX_LEN> {
    ghost is_clone = { λ original copy. copy ≡ original };

    ghost is_infallible = { λ _. ⊤ };

    fn clone(&self) -> Result<Self, AllocError> {
        Ok(Peeked {
            head: self.head,
            rest: self.rest.clone()?,
        })
    }
}

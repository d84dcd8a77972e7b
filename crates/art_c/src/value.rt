//! What stands at a key, a word or a byte string, and how it stands in a buffer beside its key.
ghost use Rattle.std.specs.Prelude.{◌≡◌, ◌+◌, ◌<◌, ℕ, List, length, IfOk, IfSome, MatchOption, OnErr};
ghost use Rattle.art_c.specs.Layouts.{bytes_key_len, bytes_pair, bytes_text_len, no_text, word_key_len, word_text_len};
ghost use Rattle.art_c.specs.Layouts.{words_pair};
ghost use Rattle.art_c.specs.Loads.{BeginsWithPair};
ghost use Rattle.art_c.specs.Placed.{IsLong};

use crate::bytes::Bytes;
use art_bytes::AsBytes;
use std::alloc::{AllocError, Global};

/// A pair of a map of words in a buffer: how long its key is, and its word.
#[repr(C)]
#[derive(Clone, Copy)]
pub struct WordsPair {
    pub(crate) key_len: usize,
    pub(crate) word: u64,
}

/// A pair of a map of bytes in a buffer: how long its key is, and its value.
#[repr(C)]
#[derive(Clone, Copy)]
pub struct BytesPair {
    pub(crate) key_len: usize,
    pub(crate) value_len: usize,
}

/// A value, as C has it in a buffer: bytes after those of its key, and an item of an array.
pub trait Value: Drop + Sized {
    /// What tells a pair.
    type Item: Copy;

    /// The bytes that stand after those of the key.
    ghost text_of: { Self → List ℕ };

    /// What tells the pair of this key.
    ghost item_of: { List ℕ → Self → Self.Item };

    /// The value of a pair that is told so, with these bytes.
    ghost value_of: { Self.Item → List ℕ → Self };

    /// How long the key of such a pair is, and the bytes after it.
    ghost key_len_of: { Self.Item → ℕ };

    ghost text_len_of: { Self.Item → ℕ };

    /// Returns the bytes that stand after those of the key: none for a word, and all of a byte string.
    fn text(&self) -> &[u8]
        ensures { result.now ≡ text_of self.now };

    /// Returns the item of the pair of this key: the length of the key in bytes, and the word, or the length of the
    /// value in bytes.
    fn item(&self, key: &[u8]) -> Self::Item
        ensures { result ≡ item_of key.now self.now };

    /// The pair that the bytes begin with, which is told so: its key, the bytes of its value, and those after it; or
    /// nothing where the bytes end before it does.
    fn parts<'a>(item: Self::Item, bytes: &'a [u8]) -> Option<(&'a [u8], &'a [u8], &'a [u8])>
        ensures parts { MatchOption result (length bytes.now < key_len_of item + text_len_of item)
            (λ p. BeginsWithPair text_of item_of item bytes.now p.0.now (value_of item p.1.now) p.2.now) }
        ensures lengths { IfSome result (λ p.
            (length p.0.now ≡ key_len_of item) × (length p.1.now ≡ text_len_of item)) };

    /// Makes the value of a pair. It fails only if out of memory, and never where its bytes stand in place.
    fn made(alloc: Global, item: Self::Item, text: &[u8]) -> Result<Self, AllocError>
        ensures value { IfOk result (λ made. made ≡ value_of item text.now) }
        ensures long { OnErr result (IsLong text.now) };
}

impl Value for u64 {
    type Item = WordsPair;

    ghost text_of = { no_text };

    ghost item_of = { words_pair };

    ghost value_of = { λ item t. item.word };

    ghost key_len_of = { word_key_len };

    ghost text_len_of = { word_text_len };

    fn text(&self) -> &[u8] {
        &[]
    }

    fn item(&self, key: &[u8]) -> WordsPair {
        WordsPair {
            key_len: key.len(),
            word: *self,
        }
    }

    fn parts<'a>(item: WordsPair, bytes: &'a [u8]) -> Option<(&'a [u8], &'a [u8], &'a [u8])> {
        let (key, rest) = bytes.split_at_checked(item.key_len)?;
        Some((key, &[], rest))
    }

    fn made(_alloc: Global, item: WordsPair, _text: &[u8]) -> Result<u64, AllocError> {
        Ok(item.word)
    }
}

impl Value for Bytes {
    type Item = BytesPair;

    ghost text_of = { λ v. v };

    ghost item_of = { bytes_pair };

    ghost value_of = { λ item t. t };

    ghost key_len_of = { bytes_key_len };

    ghost text_len_of = { bytes_text_len };

    fn text(&self) -> &[u8] {
        self.as_bytes()
    }

    fn item(&self, key: &[u8]) -> BytesPair {
        BytesPair {
            key_len: key.len(),
            value_len: self.as_bytes().len(),
        }
    }

    fn parts<'a>(item: BytesPair, bytes: &'a [u8]) -> Option<(&'a [u8], &'a [u8], &'a [u8])> {
        let (key, following) = bytes.split_at_checked(item.key_len)?;
        let (text, rest) = following.split_at_checked(item.value_len)?;
        Some((key, text, rest))
    }

    fn made(alloc: Global, _item: BytesPair, text: &[u8]) -> Result<Bytes, AllocError> {
        Bytes::copied(alloc, text)
    }
}

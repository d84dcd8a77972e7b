//! Look-ups: of a key, and of the first and the last key.
ghost use Rattle.std.specs.Prelude.{◌≡◌, find};
ghost use Rattle.std.specs.Option.{option_copied};
ghost use Rattle.art_map.specs.Contents.{first_item, has_bytes, last_item};
ghost use Rattle.art_set.specs.Members.{is_member};

use crate::set::TreeSet;
use art_bytes::AsBytes;

impl<K: AsBytes, const PREFIX_LEN: usize> TreeSet<K, PREFIX_LEN> {
    /// Returns whether there is a key with the query's bytes.
    ///
    /// ```
    /// let mut set = TreeSet::new(rt.alloc());
    /// set.insert(*b"ab")?;
    /// assert!(rt; set.contains(b"ab"));
    /// assert!(rt; !set.contains(b"a"));
    /// ```
    pub fn contains<Q: AsBytes>(&self, key: &Q) -> bool
        ensures { result ≡ is_member K.bytes (Q.bytes key.now) self.now.keys }
    {
        self.map.contains_key(key)
    }

    /// Returns the key with the query's bytes, if there is one.
    ///
    /// ```
    /// let mut set = TreeSet::new(rt.alloc());
    /// set.insert(*b"ab")?;
    /// assert_eq!(rt; set.get(&StrKey("ab")), Some(b"ab"));
    /// ```
    pub fn get<Q: AsBytes>(&self, key: &Q) -> Option<&K>
        ensures { option_copied result ≡ find (has_bytes K.bytes (Q.bytes key.now)) self.now.keys }
    {
        match self.map.get_key_value(key) {
            Some((key, _)) => Some(key),
            None => None,
        }
    }

    /// Returns the first key, which is the least, if there is one.
    ///
    /// ```
    /// let mut set = TreeSet::new(rt.alloc());
    /// set.extend([*b"cd", *b"ab"])?;
    /// assert_eq!(rt; set.first(), Some(b"ab"));
    /// ```
    pub fn first(&self) -> Option<&K>
        ensures { option_copied result ≡ first_item self.now.keys }
    {
        match self.map.first_key_value() {
            Some((key, _)) => Some(key),
            None => None,
        }
    }

    /// Returns the last key, which is the greatest, if there is one.
    ///
    /// ```
    /// let mut set = TreeSet::new(rt.alloc());
    /// set.extend([*b"cd", *b"ab"])?;
    /// assert_eq!(rt; set.last(), Some(b"cd"));
    /// ```
    pub fn last(&self) -> Option<&K>
        ensures { option_copied result ≡ last_item self.now.keys }
    {
        match self.map.last_key_value() {
            Some((key, _)) => Some(key),
            None => None,
        }
    }
}

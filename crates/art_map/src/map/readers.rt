//! `reader`: look-ups and traversals that count the nodes that they read.
ghost use Rattle.std.specs.Prelude.{◌≡◌};
ghost use Rattle.art_walks.specs.MapReads.{ReadsPairs};

use crate::map::TreeMap;
use art_bytes::AsBytes;
use art_walks::MapReader;

impl<K: AsBytes, V, const PREFIX_LEN: usize> TreeMap<K, V, PREFIX_LEN> {
    /// Returns a reader of the map, which has read no node yet. What it returns depends on the map's pairs alone, and
    /// how many nodes it reads for that on their tree. It allocates nothing.
    ///
    /// ```
    /// let mut map = TreeMap::new(rt.alloc());
    /// map.extend([(*b"ab", 1), (*b"ac", 2)])?;
    /// let mut reader = map.reader();
    /// assert_eq!(rt; reader.get_key_value(b"ab"), Some((b"ab", &1)));
    /// assert_eq!(rt; reader.visits(), 2);
    /// ```
    pub fn reader(&self) -> MapReader<'_, K, V, PREFIX_LEN>
        ensures same { (result.nodes ≡ self.now.nodes) × (result.root ≡ self.now.root) }
        ensures count { result.count ≡ 0 }
        ensures pairs { ReadsPairs K.bytes PREFIX_LEN result.nodes result.root self.now.pairs }
    {
        MapReader::new(&self.arena, self.root)
    }
}

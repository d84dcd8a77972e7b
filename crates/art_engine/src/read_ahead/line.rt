//! A line that is parsed before its turn, and how far the path of its key is descended.
ghost use Rattle.std.specs.Prelude.{◌≡◌, ℕ, ◌+◌, ◌<◌, ◌≤◌, ◌++◌, List, [], true, IsTrue, IfSome, length};
ghost use Rattle.std.specs.Prelude.{Option, Some, None, option_map, if◌then◌else◌};
ghost use Rattle.art_arena.specs.arena.Visited.{count_of};
ghost use Rattle.art_arena.specs.arena.Arena.{Arena};
ghost use Rattle.art_arena.specs.arena.Descents.{GoesOn, MeetsStored};
ghost use Rattle.art_nodes.specs.declared.leaf.LeafNode.{LeafNode};
ghost use Rattle.art_lines.specs.Parsed.{command_with};
ghost use Rattle.art_lines.specs.Reading.{command_of};
ghost use Rattle.art_lines.specs.declared.command.fields.Fields.{Fields};
ghost use Rattle.art_nodes.specs.Name.{Name};
ghost use Rattle.art_engine.specs.Ahead.{path_ahead, most_ahead, is_in_numbers, shows_value};
ghost use Rattle.art_engine.specs.Ahead.{IsStepAhead, IsDeadEnd};
ghost use Rattle.art_engine.specs.declared.read_ahead.landing.Landing.TheVariants.{Open};
ghost use Rattle.std.specs.Global.{Vec};

use crate::read_ahead::landing::{Landing, MAX_VALUE, takes};
use crate::read_ahead::names::Names;
use crate::read_ahead::{ParsedLine, PathReader, Roots};
use arrayvec::ArrayVec;
use art_arena::{InnerRef, NextStep};
use art_bytes::AsBytes;
use art_lines::command::fields::Fields;
use art_lines::command::read_line;
use art_lines::command::word::{Change, LookUp, Whole, Word};
use art_nodes::{LeafNode, OpaqueNodePtr};

/// The longest line that is read before its turn.
pub(crate) const SHORT: usize = 256;

/// Room for a full key of such a line.
pub(crate) const KEY: usize = 132;

/// A line that is parsed before its turn. It has the node that comes next on the path of its key, how many bytes of the
/// key lead there, how many nodes were read, and how many may be still. Of a line that has a path the key is that of
/// its command. It has what its path came to, and the value of the record that was found there. For proofs alone it
/// keeps the names of the nodes that were read.
#[derive(Drop)]
pub(crate) struct Line {
    text: ArrayVec<u8, SHORT>,
    word: Option<Word>,
    fields: Fields,
    key: ArrayVec<u8, KEY>,
    of_number: bool,
    node: OpaqueNodePtr,
    depth: usize,
    read: u64,
    left: u64,
    landing: Landing,
    value: ArrayVec<u8, MAX_VALUE>,
    visited: Names,
    ghost spelled: { option_map (λ word. command_with word fields) word ≡ command_of text.items },
    ghost few: { read + left ≤ most_ahead (command_of text.items) },
    ghost small: { read + left ≤ 133 },
    ghost path: { 0 < read + left → path_ahead (command_of text.items) ≡ Some key.items },
    ghost map: { 0 < read + left → of_number ≡ is_in_numbers (command_of text.items) },
    ghost told: { length visited.items ≡ read },
    ghost unlanded: { 0 < left → landing ≡ Open },
}

/// The child to which a key goes on from an inner node after so many of its bytes. It goes no further where it doesn't
/// meet the prefix, as much of it as is stored: so a look-up of the key doesn't either.
#[inline(always)]
fn next_of<K, const PREFIX_LEN: usize>(
    inner: &InnerRef<'_, K, Vec<u8>, PREFIX_LEN>,
    key: &[u8],
    depth: usize,
) -> Option<NextStep>
    ensures goes { IfSome result (λ step. GoesOn key.now depth inner.now.node step.byte step.child step.depth) }
    ensures meets { IfSome result (λ step. MeetsStored key.now depth inner.now.node) }
    ensures stops { result ≡ None → IsDeadEnd key.now depth inner.now.node }
{
    if depth <= key.len() && inner.meets_stored(key, depth) {
        return inner.next_step(key, depth);
    }
    None
}

/// Sets a list to these bytes, and returns whether there is room for them.
fn set_bytes<const N: usize>(list: &mut ArrayVec<u8, N>, bytes: &[u8]) -> bool
    ensures { IsTrue result → list.new.items ≡ bytes.now }
{
    list.clear();
    list.try_extend_from_slice(bytes).is_ok()
}

/// Sets a key to the one whose path is prefetched for a command, and returns whether there is one and it is short.
fn set_path_key(word: Word, fields: &Fields, key: &mut ArrayVec<u8, KEY>) -> bool
    ensures { IsTrue result → path_ahead (Some (command_with word fields.now)) ≡ Some key.new.items }
{
    match word {
        Word::LookUp(LookUp::Get) => set_bytes(key, fields.full_key()),
        Word::LookUp(LookUp::Find) => set_bytes(key, fields.full_key()),
        Word::LookUp(LookUp::List) => set_bytes(key, fields.full_key()),
        Word::LookUp(LookUp::Span) => {
            !fields.upper().cmp(fields.key()).is_lt() && set_bytes(key, fields.full_key())
        }
        Word::LookUp(LookUp::NGet) => set_bytes(key, &fields.number_key()),
        Word::LookUp(LookUp::NSpan) => {
            fields.number() <= fields.bound() && set_bytes(key, &fields.number_key())
        }
        Word::Change(Change::Over) => set_bytes(key, fields.full_key()),
        Word::Change(Change::Del) => set_bytes(key, fields.full_key()),
        Word::Change(Change::NDel) => set_bytes(key, &fields.number_key()),
        Word::Change(Change::Put) => false,
        Word::Change(Change::NPut) => false,
        Word::Whole(_) => false,
        Word::Drop => false,
    }
}

/// Whether the path that is prefetched for a word lies in the map of numbers.
fn is_of_number(word: Word) -> bool
    ensures { (fields : Fields) → result ≡ is_in_numbers (Some (command_with word fields)) }
{
    match word {
        Word::LookUp(LookUp::NGet) => true,
        Word::LookUp(LookUp::NSpan) => true,
        Word::LookUp(LookUp::Get) => false,
        Word::LookUp(LookUp::Find) => false,
        Word::LookUp(LookUp::List) => false,
        Word::LookUp(LookUp::Span) => false,
        Word::Change(Change::NDel) => true,
        Word::Change(Change::NPut) => false,
        Word::Change(Change::Put) => false,
        Word::Change(Change::Over) => false,
        Word::Change(Change::Del) => false,
        Word::Whole(Whole::Dump) => false,
        Word::Whole(Whole::Audit) => false,
        Word::Drop => false,
    }
}

/// Whether the answer to a word shows the value of a record that its path leads to.
fn is_value_shown(word: Word) -> bool
    ensures { (fields : Fields) → result ≡ shows_value (Some (command_with word fields)) }
{
    match word {
        Word::LookUp(_) => true,
        Word::Change(_) => false,
        Word::Whole(_) => false,
        Word::Drop => false,
    }
}

/// What is read early of a leaf: its key, and its value if the answer to the word shows it.
#[inline(always)]
fn early_of<'a, K>(
    word: Option<Word>,
    leaf: &'a LeafNode<K, Vec<u8>>,
) -> (&'a K, Option<&'a Vec<u8>>)
    ensures key { result.0.now ≡ leaf.now.key }
    ensures value { IfSome result.1 (λ value. value.now ≡ leaf.now.value) }
    ensures shown { IfSome result.1 (λ _. (fields : Fields)
        → shows_value (option_map (λ word. command_with word fields) word) ≡ true) }
{
    let (key, value) = leaf.entry_ref();
    if let Some(word) = word {
        if is_value_shown(word) {
            return (key, Some(value));
        }
    }
    (key, None)
}

impl Line {
    ghost use Rattle.art_engine.specs.ReadAhead.{IsOnWayIn, IsReadEarly};

    /// The empty line.
    pub(crate) fn new() -> Self {
        let text: ArrayVec<u8, SHORT> = ArrayVec::new();
        let mut fields = Fields::new();
        let word = read_line(text.as_slice(), &mut fields);
        Line {
            text,
            word,
            fields,
            key: ArrayVec::new(),
            of_number: false,
            node: OpaqueNodePtr::default(),
            depth: 0,
            read: 0,
            left: 0,
            landing: Landing::Open,
            value: ArrayVec::new(),
            visited: Names::new(),
        }
    }

    /// Reads a line that is short. Its path begins at the root of a map that is given, if any.
    pub(crate) fn read(&mut self, text: &[u8], roots: &Roots)
        ensures none { self.new.read ≡ 0 }
        ensures unvisited { self.new.visited.items ≡ [] }
        ensures unlanded { self.new.landing ≡ Open }
        ensures start { 0 < self.new.left → (self.new.depth ≡ 0)
            × ((if self.new.of_number then roots.now.numbers else roots.now.keys) ≡ Some self.new.node) }
        ensures text { length text.now ≤ 256 → self.new.text.items ≡ text.now }
    {
        self.text.clear();
        let _ = self.text.try_extend_from_slice(text);
        self.word = read_line(self.text.as_slice(), &mut self.fields);
        self.read = 0;
        self.left = 0;
        self.depth = 0;
        self.landing = Landing::Open;
        self.visited = Names::new();
        let Some(word) = self.word else {
            return;
        };
        self.of_number = is_of_number(word);
        let Some(root) = roots.of(self.of_number) else {
            return;
        };
        if set_path_key(word, &self.fields, &mut self.key) {
            self.node = root;
            self.left = self.key.len() as u64 + 1;
        }
    }

    /// A law, which does nothing: what it asks for is what its bytes spell, and no more was read ahead than may be. As
    /// many nodes were visited for it as were read.
    pub(crate) fn is_read(&self)
        ensures read { option_map (λ word. command_with word self.now.fields) self.now.word
            ≡ command_of self.now.text.items }
        ensures few { self.now.read ≤ most_ahead (command_of self.now.text.items) }
        ensures told { length self.now.visited.items ≡ self.now.read }
    {}

    /// Returns it parsed, with what its path came to if the records are still those in which it was descended.
    pub(crate) fn parsed(&self, is_fresh: bool) -> ParsedLine<'_>
        ensures word { result.word ≡ self.now.word }
        ensures fields { result.fields.now ≡ self.now.fields }
        ensures own { result.ahead ≡ self.now.read }
        ensures landing { result.landing ≡ (if is_fresh then self.now.landing else Open) }
        ensures value { result.value.now ≡ self.now.value.items }
    {
        ParsedLine {
            word: self.word,
            fields: &self.fields,
            ahead: self.read,
            landing: if is_fresh {
                self.landing
            } else {
                Landing::Open
            },
            value: self.value.as_slice(),
        }
    }

    /// Whether its path goes on in the map of numbers, or in that of keys.
    #[inline(always)]
    pub(crate) fn goes_on(&self, of_number: bool) -> bool
        ensures { IsTrue result → self.now.of_number ≡ of_number }
    {
        self.left != 0 && self.of_number == of_number
    }

    /// Reads the next node of the path, if there is one. That is the node under the name that the step before came to.
    /// The next name is its child under the key's next byte. So what was visited for the line stays a way from the
    /// root, and what the reader has visited more is what the line has more. If the node is a leaf, it returns what is
    /// read of it early: its key, and its value if the line's answer shows it. If the key goes on from an inner node to
    /// no child, there is no record.
    #[inline(always)]
    pub(crate) fn step<'a, K: AsBytes, const PREFIX_LEN: usize>(
        &mut self,
        reader: &mut PathReader<'a, K, PREFIX_LEN>,
    ) -> Option<(&'a K, Option<&'a Vec<u8>>)>
        ensures counted { self.new.read + count_of reader.old.reader ≡ self.old.read + count_of reader.new.reader }
        ensures one { self.new.read ≤ self.old.read + 1 }
        ensures named { (more : List Name) × (self.new.visited.items ≡ self.old.visited.items ++ more)
            × (reader.new.visited.items ≡ reader.old.visited.items ++ more) }
        ensures along { IsStepAhead reader.old.arena.now self.old.key.items
            (self.old.node, self.old.depth) (self.new.node, self.new.depth) }
        ensures way { (root : Option Name) → IsOnWayIn K.bytes reader.old.arena.now root self.old
            → IsOnWayIn K.bytes reader.new.arena.now root self.new }
        ensures leaf { IfSome result (λ early. IsReadEarly reader.old.arena.now self.new.node early) }
        ensures shown { IfSome result (λ early. IfSome early.1 (λ _.
            shows_value (command_of self.old.text.items) ≡ true)) }
        ensures text { self.new.text.items ≡ self.old.text.items }
        ensures same_map { self.new.of_number ≡ self.old.of_number }
        ensures same_tree { (reader.new.arena.now ≡ reader.old.arena.now) × (reader.new.root ≡ reader.old.root) }
    {
        if self.left == 0 {
            return None;
        }
        let Some(node) = reader.visit(self.node) else {
            self.left = 0;
            return None;
        };
        self.visited = self.visited.then(&self.node);
        self.left -= 1;
        self.read += 1;
        match node.leaf() {
            Ok(leaf) => {
                self.left = 0;
                self.landing = Landing::Leaf;
                Some(early_of(self.word, leaf))
            }
            Err(inner) => {
                match next_of(&inner, self.key.as_slice(), self.depth) {
                    Some(next) => {
                        self.node = next.child;
                        self.depth = next.depth;
                    }
                    None => {
                        self.left = 0;
                        self.landing = Landing::Missed;
                    }
                }
                None
            }
        }
    }

    /// Finds out by the key of the leaf at which its path ended whether that is the record that its look-up is for, and
    /// keeps the record's value if it is short. Of a line that looks up no single record it finds out nothing.
    #[inline(always)]
    pub(crate) fn land<K: AsBytes>(&mut self, early: (&K, Option<&Vec<u8>>))
        ensures way { (arena : Arena K (Vec ℕ)) (root : Option Name) → IsReadEarly arena self.old.node early.entry
            → IsOnWayIn K.bytes arena root self.old → IsOnWayIn K.bytes arena root self.new }
        ensures kept { (self.new.text ≡ self.old.text) × (self.new.read ≡ self.old.read)
            × (self.new.of_number ≡ self.old.of_number) × (self.new.node ≡ self.old.node) }
    {
        let Landing::Leaf = self.landing else {
            return;
        };
        let (Some(word), Some(value)) = (self.word, early.1) else {
            return;
        };
        let stored = early.0.as_bytes();
        match takes(word, stored, self.key.as_slice()) {
            None => {}
            Some(false) => self.landing = Landing::Missed,
            Some(true) => {
                if set_bytes(&mut self.value, value) {
                    self.landing = Landing::Found(stored.len());
                }
            }
        }
    }
}

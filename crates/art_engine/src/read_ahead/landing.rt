//! What the path of a line's key came to, when it was descended before the line's turn.
ghost use Rattle.std.specs.Prelude.{◌≡◌, IfSome, Some};
ghost use Rattle.art_lines.specs.Parsed.{command_with};
ghost use Rattle.art_lines.specs.declared.command.fields.Fields.{Fields};
ghost use Rattle.art_engine.specs.Ahead.{finds_key};

use art_lines::command::word::{LookUp, Whole, Word};

/// The longest value, in bytes, that is kept for a line's answer.
pub(crate) const MAX_VALUE: usize = 64;

/// What is known, before its turn, of the record that a line's look-up is for.
#[derive(Clone, Copy, Debug, PartialEq, Eq)]
pub enum Landing {
    /// Nothing: its path wasn't descended to the end, or the records may have changed since.
    Open,
    /// Its path ends at a leaf, whose key wasn't compared, or whose value is too long to be kept.
    Leaf,
    /// There is no such record.
    Missed,
    /// There is one. So many bytes has its full key, and its value is kept.
    Found(usize),
}

/// Whether a look-up of a word finds the record with this full key: the key is the line's own, or for a `find` a prefix
/// of it. `None` if the word isn't a look-up of one record.
#[inline(always)]
pub(crate) fn takes(word: Word, stored: &[u8], full: &[u8]) -> Option<bool>
    ensures { IfSome result (λ is. (fields : Fields)
        → is ≡ finds_key (Some (command_with word fields)) full.now stored.now) }
{
    match word {
        Word::LookUp(LookUp::Get) => Some(stored == full),
        Word::LookUp(LookUp::NGet) => Some(stored == full),
        Word::LookUp(LookUp::Find) => Some(full.starts_with(stored)),
        Word::LookUp(LookUp::List) => None,
        Word::LookUp(LookUp::Span) => None,
        Word::LookUp(LookUp::NSpan) => None,
        Word::Change(_) => None,
        Word::Whole(_) => None,
        Word::Drop => None,
    }
}

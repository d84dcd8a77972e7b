//! The words that a line may begin with. Any other word makes a line bad.
//!
//! `row_of` is the table of words: what each is called, its family, and what stands after it. The definitions have a
//! table, too, in `specs/Table`, which says what each word asks for.
ghost use Rattle.std.specs.Prelude.{◌≡◌, option_map};
ghost use Rattle.art_lines.specs.Table.{word_in, with_shape};

/// A word that asks for something of a tenant's records and changes nothing.
#[derive(Clone, Copy)]
pub enum LookUp {
    /// `get t k`
    Get,
    /// `find t k`
    Find,
    /// `list t p`
    List,
    /// `span t lo hi`
    Span,
    /// `nget t n`
    NGet,
    /// `nspan t lo hi`
    NSpan,
}

/// A word that changes a tenant's records.
#[derive(Clone, Copy)]
pub enum Change {
    /// `put t k v`
    Put,
    /// `over t k v`
    Over,
    /// `del t k`
    Del,
    /// `nput t n v`
    NPut,
    /// `ndel t n`
    NDel,
}

/// A word that asks for something of all records.
#[derive(Clone, Copy)]
pub enum Whole {
    /// `dump`
    Dump,
    /// `audit`
    Audit,
}

/// A word, by its family.
#[derive(Clone, Copy)]
pub enum Word {
    LookUp(LookUp),
    Change(Change),
    Whole(Whole),
    /// `drop t`: it removes all of a tenant's records.
    Drop,
}

/// What stands after a word. `shapes` has a reader in place for each.
#[derive(Clone, Copy)]
pub enum Shape {
    /// A tenant and a key: `get`, `find`, `del`; the prefix of `list` is read as a key.
    Key,
    /// A tenant, a key and a value: `put`, `over`.
    KeyAndValue,
    /// A tenant and two keys: the bounds of `span`.
    TwoKeys,
    /// A tenant and a number: `nget`, `ndel`.
    Number,
    /// A tenant, a number and a value: `nput`.
    NumberAndValue,
    /// A tenant and two numbers: `nspan`.
    TwoNumbers,
    /// A tenant alone: `drop`.
    Tenant,
    /// Nothing: `dump`, `audit`.
    Nothing,
}

/// The table of words. Returns the word that a field is, by its letters, which are lower case, and what stands after
/// it.
#[inline(always)]
pub fn row_of(field: &[u8]) -> Option<(Word, Shape)>
    ensures { result ≡ option_map with_shape (word_in field.now) }
{
    Some(match field {
        b"put" => (Word::Change(Change::Put), Shape::KeyAndValue),
        b"get" => (Word::LookUp(LookUp::Get), Shape::Key),
        b"over" => (Word::Change(Change::Over), Shape::KeyAndValue),
        b"del" => (Word::Change(Change::Del), Shape::Key),
        b"find" => (Word::LookUp(LookUp::Find), Shape::Key),
        b"list" => (Word::LookUp(LookUp::List), Shape::Key),
        b"span" => (Word::LookUp(LookUp::Span), Shape::TwoKeys),
        b"nput" => (Word::Change(Change::NPut), Shape::NumberAndValue),
        b"nget" => (Word::LookUp(LookUp::NGet), Shape::Number),
        b"ndel" => (Word::Change(Change::NDel), Shape::Number),
        b"nspan" => (Word::LookUp(LookUp::NSpan), Shape::TwoNumbers),
        b"drop" => (Word::Drop, Shape::Tenant),
        b"dump" => (Word::Whole(Whole::Dump), Shape::Nothing),
        b"audit" => (Word::Whole(Whole::Audit), Shape::Nothing),
        _ => return None,
    })
}

/// Returns the word that a field is, by its letters, which are lower case.
pub fn word_of(field: &[u8]) -> Option<Word>
    ensures { result ≡ word_in field.now }
{
    let (word, _) = row_of(field)?;
    Some(word)
}

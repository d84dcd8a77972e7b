//! Commands, and how a line spells one.
//!
//! A line is read by its word (`word`), whose shape (`shapes`) says what fields stand after it (`fields`).
//!
//! The grammar is a relation, `Spells`. The reading computes it in place, by the shape of a word, and the law
//! `reading_is_spelling` ties the two.
ghost use Rattle.std.specs.Prelude.{◌≡◌, ◌≤◌, ◌↔◌, Option, Some, length, option_map};
ghost use Rattle.art_lines.specs.Commands.{Command as AskedCommand, Spells};
ghost use Rattle.art_lines.specs.Reading.{command_of};
ghost use Rattle.art_lines.specs.Parsed.{meaning, command_with, looks_up, changes};

mod decimals;
pub mod fields;
pub mod shapes;
pub mod word;

use arrayvec::ArrayVec;
use fields::{FIELD, Fields};
use shapes::{read_fields, split_field};
use word::{Change, LookUp, Whole, Word, row_of};

/// The longest line, in bytes, without its newline.
pub const LINE: usize = 4096;

/// The longest line with its newline, in bytes: room for any line, and for any reply of one line.
pub const LINE_ROOM: usize = LINE + 1;

/// What a line asks for.
#[derive(Drop)]
pub enum Command {
    /// `put t k v`: puts a value at a tenant's key.
    Put {
        tenant: u32,
        key: ArrayVec<u8, FIELD>,
        value: ArrayVec<u8, FIELD>,
    },
    /// `over t k v`: puts a value at a tenant's key, in place of all keys that overlap it.
    Over {
        tenant: u32,
        key: ArrayVec<u8, FIELD>,
        value: ArrayVec<u8, FIELD>,
    },
    /// `del t k`: removes the value at a tenant's key.
    Del {
        tenant: u32,
        key: ArrayVec<u8, FIELD>,
    },
    /// `get t k`: asks for the value at a tenant's key.
    Get {
        tenant: u32,
        key: ArrayVec<u8, FIELD>,
    },
    /// `find t k`: asks for the tenant's key that is a prefix of this one, or equals it.
    Find {
        tenant: u32,
        key: ArrayVec<u8, FIELD>,
    },
    /// `list t p`: asks for the tenant's keys that begin with a prefix.
    List {
        tenant: u32,
        prefix: ArrayVec<u8, FIELD>,
    },
    /// `span t lo hi`: asks for the tenant's keys from a low one on and below a high one.
    Span {
        tenant: u32,
        low: ArrayVec<u8, FIELD>,
        high: ArrayVec<u8, FIELD>,
    },
    /// `nput t n v`: puts a value at a tenant's number.
    NPut {
        tenant: u32,
        number: i64,
        value: ArrayVec<u8, FIELD>,
    },
    /// `nget t n`: asks for the value at a tenant's number.
    NGet {
        tenant: u32,
        number: i64,
    },
    /// `ndel t n`: removes the value at a tenant's number.
    NDel {
        tenant: u32,
        number: i64,
    },
    /// `nspan t lo hi`: asks for the tenant's numbers from a low one on and up to a high one.
    NSpan {
        tenant: u32,
        low: i64,
        high: i64,
    },
    /// `drop t`: removes all records of a tenant.
    Drop {
        tenant: u32,
    },
    /// `dump`: asks for all records.
    Dump,
    /// `audit`: asks how many nodes of each kind the trees of all records have.
    Audit,
}

/// Returns the command that the line spells, or `None` if it spells none. The line is passed without its newline. It
/// allocates nothing.
///
/// ```
/// assert!(rt; matches!(parse_line(b"get 7 0a0b"), Some(Command::Get { tenant: 7, .. })));
/// assert!(rt; parse_line(b"get 7").is_none());
/// ```
pub fn parse_line(line: &[u8]) -> Option<Command>
    ensures value { option_map meaning result ≡ command_of line.now }

    // It is the one command that the line spells, and None exactly where the line spells none.
    ensures spelled { (command : AskedCommand) → (option_map meaning result ≡ Some command) ↔ Spells line.now command }
{
    let mut fields = Fields::new();
    let word = read_line(line, &mut fields)?;
    Some(command_of_fields(word, &fields))
}

/// The command of a word and of what was read after it.
fn command_of_fields(word: Word, fields: &Fields) -> Command
    ensures { meaning result ≡ command_with word fields.now }
{
    match word {
        Word::LookUp(word) => look_up_of_fields(word, fields),
        Word::Change(word) => change_of_fields(word, fields),
        Word::Whole(Whole::Dump) => Command::Dump,
        Word::Whole(Whole::Audit) => Command::Audit,
        Word::Drop => Command::Drop {
            tenant: fields.tenant(),
        },
    }
}

/// The command of a word that changes nothing, and of what was read after it.
fn look_up_of_fields(word: LookUp, fields: &Fields) -> Command
    ensures { meaning result ≡ looks_up word fields.now }
{
    let tenant = fields.tenant();
    let key = bytes_of(fields.key());
    match word {
        LookUp::Get => Command::Get { tenant, key },
        LookUp::Find => Command::Find { tenant, key },
        LookUp::List => Command::List {
            tenant,
            prefix: key,
        },
        LookUp::Span => Command::Span {
            tenant,
            low: key,
            high: bytes_of(fields.upper()),
        },
        LookUp::NGet => Command::NGet {
            tenant,
            number: fields.number(),
        },
        LookUp::NSpan => Command::NSpan {
            tenant,
            low: fields.number(),
            high: fields.bound(),
        },
    }
}

/// The command of a word that changes something, and of what was read after it.
fn change_of_fields(word: Change, fields: &Fields) -> Command
    ensures { meaning result ≡ changes word fields.now }
{
    let tenant = fields.tenant();
    let key = bytes_of(fields.key());
    match word {
        Change::Put => Command::Put {
            tenant,
            key,
            value: bytes_of(fields.value()),
        },
        Change::Over => Command::Over {
            tenant,
            key,
            value: bytes_of(fields.value()),
        },
        Change::Del => Command::Del { tenant, key },
        Change::NPut => Command::NPut {
            tenant,
            number: fields.number(),
            value: bytes_of(fields.value()),
        },
        Change::NDel => Command::NDel {
            tenant,
            number: fields.number(),
        },
    }
}

/// A field's bytes as a vector.
fn bytes_of(field: &[u8]) -> ArrayVec<u8, FIELD>
    requires { length field.now ≤ 2045 }
    ensures { result.items ≡ field.now }
{
    let mut bytes = ArrayVec::new();
    let _ = bytes.try_extend_from_slice(field);
    bytes
}

/// Reads a line in place: returns the word that it begins with, and reads what stands after it into `fields`. It
/// returns `None` if the line spells no command.
pub fn read_line(line: &[u8], fields: &mut Fields) -> Option<Word>
    ensures { option_map (λ word. command_with word fields.new) result ≡ command_of line.now }
{
    if line.len() > LINE {
        return None;
    }
    let (field, rest) = split_field(line);
    let (word, shape) = row_of(field)?;
    if !read_fields(shape, rest, fields) {
        return None;
    }
    Some(word)
}

//! The engine: the records of many tenants, and what each line does to them. The contract of `run` is what it rests on:
//! what is written is the definition's replies to the lines read, however they are cut.
//!
//! To believe it, believe these definitions, in this order: `Lines`, `Words`, `Commands` and `Keys` of art_lines;
//! `Records` and `Keys`; `ReplyWords` of art_lines; `Replies`, `Refusals`, `Outcome` and `Faults`. `Outcome` reads a
//! line by `Reading` of art_lines, which need not be believed: the law `reading_is_spelling` there says that it is the
//! grammar of `Commands`.
//!
//! It knows no standard input, so an index can stand in another program. Since a program can't be stood upon, all calls
//! are here, and `art_index` only calls them. What of art_lines they are used with is passed on.
#![tactic(auto)]

mod audit;
mod change;
mod drop_tenant;
mod full_key;
mod handling;
mod index;
pub mod laws;
mod listing;
mod lookup;
mod pair_batch;
mod piece;
pub mod read_ahead;
mod records;
mod running;

pub use art_lines::{
    Command, FromReader, ReadFailed, Sink, Source, ToWriter, WriteFailed, parse_line,
};
pub use handling::{Handled, RunFault};
pub use index::Index;
pub use lookup::{look, look_up};
pub use records::are_records;
pub use running::{flushed, run};

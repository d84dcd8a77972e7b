//! The line language: what a line asks for and how it is spelled, and the words of replies. Also where bytes come from
//! and where they go. No records are known here.
//!
//! A line is read in place (`command`), a reply is put together in a room (`room`, `gather`) and written to a sink
//! (`reply`). `Source` and `Sink` are what gives and takes bytes. `FromReader` and `ToWriter` make them of any reader
//! and writer, and `Buffered` gathers what a sink takes.
#![tactic(auto)]

pub mod buffered;
pub mod command;
mod counted;
mod from_reader;
pub mod gather;
pub mod head;
pub mod laws;
pub mod reply;
pub mod room;
mod stream;
mod to_writer;

pub use buffered::Buffered;
pub use command::{Command, parse_line};
pub use from_reader::FromReader;
pub use stream::{ReadFailed, Sink, Source, WriteFailed};
pub use to_writer::ToWriter;

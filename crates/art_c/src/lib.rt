//! The maps for C: a static library with an export for each call. `bindings/c/artmap.h` declares the calls, and
//! `bindings/c/artmap.c` passes them on to these exports.
//! A map has words or byte strings under its keys. Each export's clauses say what it answers of the pairs of a
//! handle, in the words of the map: `specs/Answers.antt` has their form, `specs/Calls.antt` what single calls tell, and
//! `specs/Puts.antt` what they change.
#![tactic(auto)]

mod byte_maps;
mod bytes;
mod calls;
mod code;
mod copies;
mod handle;
mod many;
mod nodes;
mod value;
mod words;

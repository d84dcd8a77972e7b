//! The exports of maps of words. What each says to a caller in C stands in `bindings/c/artmap.h`.

pub(crate) mod ends;
pub(crate) mod many;
pub(crate) mod points;
pub(crate) mod wholes;

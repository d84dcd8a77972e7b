//! What is done with a map of either kind. The exports call these.

pub(crate) mod changes;
pub(crate) mod counts;
pub(crate) mod gets;
pub(crate) mod joins;
pub(crate) mod loads;
pub(crate) mod marked;
pub(crate) mod own;
pub(crate) mod prefixes;
pub(crate) mod reads;
pub(crate) mod walks;
pub(crate) mod wholes;

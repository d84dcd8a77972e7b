//! The names of nodes that were visited, which only proofs read. They take no room, and keeping them does nothing at
//! run time.
ghost use Rattle.std.specs.Prelude.{◌≡◌, List, [], ◌∷◌, ◌++◌};
ghost use Rattle.std.specs.Borrow.{ftrue};
ghost use Rattle.art_nodes.specs.Name.{Name};

use art_nodes::OpaqueNodePtr;
use std::marker::Model;

/// The names of the nodes that were visited, in order.
#[derive(Drop)]
pub(crate) struct Names {
    ghost items: { List Name },
}

impl Model for Names {
    ghost also_owns = { λ _. ftrue };
}

impl Names {
    /// Those of no nodes.
    pub(crate) fn new() -> Names
        ensures { result.items ≡ [] }
    {
        Names {}
    }

    /// These, and after them this one.
    pub(crate) fn then(&self, _name: &OpaqueNodePtr) -> Names
        ensures { result.items ≡ self.now.items ++ _name.now ∷ [] }
    {
        Names {}
    }
}

//! Names and their roots, as they are listed.
ghost use Rattle.std.specs.Prelude.{◌≡◌, map};
ghost use Rattle.namespace.specs.Listing.{listed_value};

use crate::record::Root;
use std::marker::Model;

/// A name, and the root that it has.
#[derive(Drop)]
pub struct ListedName {
    /// The name.
    pub name: Vec<u8>,
    /// Its root.
    pub root: Root,
}

/// Names in the order of their bytes, each with its root. Contracts see it as the list of them.
#[derive(Drop)]
pub struct Listing {
    pub(crate) names: Vec<ListedName>,
}

impl Model for Listing {
    ghost use Rattle.std.specs.Prelude.{List, map};
    ghost use Rattle.namespace.specs.Listing.{NamedRoot, listed_value};

    ghost Value = { List NamedRoot };

    ghost view = { λ l. map listed_value l.names.items };
}

impl Listing {
    /// The names, the first of them first.
    pub fn names(&self) -> &[ListedName]
        ensures { map listed_value result.now ≡ self.now }
    {
        &self.names
    }
}

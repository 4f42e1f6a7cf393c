#![tactic(auto)]
//! Names of catalogs, for contracts alone.
//!
//! Running code holds a catalog; what a lock or a mailbox keeps has only a type. So a type may name a catalog. A struct with such
//! a type as its parameter may promise that its facts are true in the named catalog.

use std::marker::Brand;

/// A type that names a catalog. It has no calls: a function that takes a catalog requires that it is the named one.
pub trait NamedCatalog {
    ghost use Rattle.std.specs.Prelude.{List};
    ghost use Rattle.catalog.specs.Entries.{Entry};

    /// The catalog.
    ghost catalog: { List Entry };
}

impl NamedCatalog for Brand {
    ghost use Rattle.std.specs.Prelude.{[]};

    ghost catalog = { [] };
}

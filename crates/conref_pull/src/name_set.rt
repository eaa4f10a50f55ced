//! The names of an element's attributes in a set, where many are sought among many.

ghost use Rattle.std.specs.Prelude.{◌≡◌, List, IfOk, is_some};
ghost use Rattle.dita_doc.specs.ClassValue as class_value_spec;
ghost use Rattle.dita_doc.specs.declared.doc.Attribute.{Attribute};
ghost use Rattle.conref_pull.specs.NameSet as spec;

use dita_doc::{Attribute, List};
use std::alloc::{AllocError, Global};
use std::collections::BTreeSet;

/// The names of some attributes.
#[derive(Drop)]
pub(crate) struct NameSet<'a> {
    names: BTreeSet<&'a str>,
}

impl<'a> NameSet<'a> {
    pub(crate) fn of(
        alloc: Global,
        attributes: &'a List<Attribute>,
    ) -> Result<NameSet<'a>, AllocError>
        ensures { IfOk result (λ set. spec.HasNamesOf set attributes.now) }
    {
        let mut names = BTreeSet::new(alloc);
        for attribute in attributes.as_slice() {
            names.insert(attribute.name.as_str())?;
        }
        Ok(NameSet { names })
    }

    /// Whether one of the attributes has this name.
    pub(crate) fn has(&self, name: &str) -> bool
        ensures { (attributes : List Attribute) → spec.HasNamesOf self.now attributes
            → result ≡ is_some (class_value_spec.value_of name.now attributes) }
    {
        self.names.contains(name)
    }
}

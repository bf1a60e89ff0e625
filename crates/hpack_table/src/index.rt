//! Where a table's fields stand, by the hashes of their names and of their whole texts.

ghost use Rattle.std.specs.Prelude.{◌≡◌, ◌∷◌, [], take, List, None, OnOk, OnErr};
ghost use Rattle.std.specs.Option.{ForSome};
ghost use Rattle.model.specs.Messages.{Field as FieldLine};
ghost use Rattle.hpack_table.specs.Indexing.{IsIndexOf, name_hash, text_hash};

use crate::chains::Chains;
use crate::field::Field;
use std::alloc::{AllocError, Global};
use std::hash::{FoldHasher, Hasher};

/// The entries of a table by two hashes.
#[derive(Drop)]
pub struct Index {
    pub names: Chains,
    pub texts: Chains,
}

/// The hashes of a field: of its name, and of its name and its value.
#[derive(Clone, Copy)]
pub struct Hashes {
    pub name: u64,
    pub text: u64,
}

/// The hashes of the field with this name and this value.
pub fn hash_field(name: &[u8], value: &[u8]) -> Hashes
    ensures name { result.name ≡ name_hash name.now }
    ensures text { result.text ≡ text_hash name.now value.now }
{
    let mut hasher = FoldHasher::default();
    hasher.write(name);
    let name = hasher.finish();
    hasher.write(value);
    Hashes {
        name,
        text: hasher.finish(),
    }
}

impl Index {
    /// The index of an empty table.
    pub fn new(alloc: Global) -> Index
        ensures { IsIndexOf result [] }
    {
        Index {
            names: Chains::new(alloc),
            texts: Chains::new(alloc),
        }
    }

    /// Adds a field with these hashes as the newest. An `Err` says that memory was refused.
    fn add(&mut self, hashes: Hashes) -> Result<(), AllocError>
        ensures names { OnOk result (self.new.names ≡ hashes.name ∷ self.old.names) }
        ensures texts { OnOk result (self.new.texts ≡ hashes.text ∷ self.old.texts) }
    {
        self.names.add(hashes.name)?;
        self.texts.add(hashes.text)
    }
}

/// Adds a field as the newest to the index, where there is one. An `Err` says that memory was
/// refused; then there is none any more.
pub fn enter(index: &mut Option<Index>, field: &Field) -> Result<(), AllocError>
    ensures ok { OnOk result ((fields : List FieldLine) → ForSome index.old (λ i. IsIndexOf i fields)
        → ForSome index.new (λ i. IsIndexOf i (field.now ∷ fields))) }
    ensures err { OnErr result (index.new ≡ None) }
{
    let Some(entered) = index else {
        return Ok(());
    };
    match entered.add(hash_field(field.name(), field.value())) {
        Ok(()) => Ok(()),
        Err(error) => {
            *index = None;
            Err(error)
        }
    }
}

/// Lets go of the oldest fields of the index, where there is one, so that so many stay.
pub fn shorten(index: &mut Option<Index>, count: usize)
    ensures { (fields : List FieldLine) → ForSome index.old (λ i. IsIndexOf i fields) → ForSome index.new (λ i. IsIndexOf i (take count fields)) }
{
    if let Some(index) = index {
        index.names.keep(count);
        index.texts.keep(count);
    }
}

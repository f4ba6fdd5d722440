// The names that a file declares.
ghost use Rattle.std.specs.Prelude.{◌≡◌, ◌++◌, ◌∷◌, [], ◌+◌, length, None, OnOk, OnErr, IfOk};
ghost use Rattle.std.specs.Option.{option_map};
ghost use Rattle.sy_forms_items.specs.Environments.{entry_under};

use crate::names::Entity;
use indexmap::IndexMap;
use std::alloc::Global;
use std::marker::Model;
use sy_terms::{Sort, Want};

/// The abbreviations of sorts and the names of entities, each in the order of declaration.
#[derive(Drop)]
pub struct Names {
    alloc: Global,
    sorts: IndexMap<Vec<u8>, Sort>,
    entities: IndexMap<Vec<u8>, Entity>,
}

impl Model for Names {
    ghost use Rattle.sy_forms_items.specs.Table.{NameTable, under};

    ghost Value = { NameTable };

    ghost view = { λ n.
        record { sorts = under (λ k. k.items) n.sorts.entries; entities = under (λ k. k.items) n.entities.entries } };
}

/// The bytes of a name, as a key.
pub(crate) fn key_of(alloc: Global, name: &[u8]) -> Result<Vec<u8>, Want>
    ensures { IfOk result (λ key. key.items ≡ name.now) }
{
    let key = name.to_vec(alloc)?;
    Ok(key)
}

impl Names {
    /// No names.
    pub fn new(alloc: Global) -> Names
        ensures sorts { result.sorts ≡ [] }
        ensures entities { result.entities ≡ [] }
    {
        Names {
            alloc,
            sorts: IndexMap::new(alloc),
            entities: IndexMap::new(alloc),
        }
    }

    /// The sort that the name abbreviates.
    pub fn sort(&self, name: &[u8]) -> Option<Sort>
        ensures { result ≡ entry_under name.now self.now.sorts }
    {
        self.sorts.get(name).copied()
    }

    /// What the name stands for.
    pub fn entity(&self, name: &[u8]) -> Option<&Entity>
        ensures { option_map (λ e. e.now) result ≡ entry_under name.now self.now.entities }
    {
        self.entities.get(name)
    }
    /// How many names there are.
    pub fn len(&self) -> usize
        ensures { result ≡ length self.now.sorts + length self.now.entities }
    {
        self.sorts.len() + self.entities.len()
    }

    /// Lets the name abbreviate a sort.
    pub fn add_sort(&mut self, name: &[u8], sort: Sort) -> Result<(), Want>
        requires { entry_under name.now self.old.sorts ≡ None }
        ensures sorts { OnOk result (self.new.sorts ≡ self.old.sorts ++ (name.now, sort) ∷ []) }
        ensures entities { self.new.entities ≡ self.old.entities }
        ensures err { OnErr result (self.new.sorts ≡ self.old.sorts) }
    {
        let key = key_of(self.alloc, name)?;
        self.sorts.insert(key, sort)?;
        Ok(())
    }

    /// Lets the name stand for something.
    pub fn add_entity(&mut self, name: &[u8], entity: Entity) -> Result<(), Want>
        requires { entry_under name.now self.old.entities ≡ None }
        ensures entities { OnOk result (self.new.entities ≡ self.old.entities ++ (name.now, entity) ∷ []) }
        ensures sorts { self.new.sorts ≡ self.old.sorts }
        ensures err { OnErr result (self.new.entities ≡ self.old.entities) }
    {
        let key = key_of(self.alloc, name)?;
        self.entities.insert(key, entity)?;
        Ok(())
    }
}

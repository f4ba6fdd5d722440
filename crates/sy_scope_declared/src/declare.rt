// Variables, abbreviations of sorts, and terms in a context.
ghost use Rattle.std.specs.Prelude.{◌≡◌, None, OnOk};
ghost use Rattle.sy_text_items.specs.Views.{item_of};
ghost use Rattle.sy_forms_items.specs.Environments.{entry_under};
ghost use Rattle.sy_forms_items.specs.Readings.{ReadingGives};
ghost use Rattle.sy_scope_names.specs.Asked.{spelled_of};
ghost use Rattle.sy_scope_declared.specs.Seen.{context_of};
ghost use Rattle.sy_scope_names.specs.Changes as spec;

use crate::context::Context;
use sy_forms_items::{Entity, ReadEnd, read_sort};
use sy_scope_names::{Spelled, new_name, new_sort_name};
use sy_terms::{Sort, Theory, Want};
use sy_text_items::Sexp;

impl<T: Theory> Context<T> {
    /// Declares a variable that has a new name.
    fn add_variable(&mut self, name: &[u8], sort: Sort) -> Result<(), Want>
        requires { entry_under name.now self.old.names.entities ≡ None }
        ensures step { OnOk result (context_of T.denotes self.new ≡
            spec.with_variable (context_of T.denotes self.old) name.now sort) }
        ensures logic { OnOk result (self.new.logic ≡ self.old.logic) }
    {
        let Ok(position) = u32::try_from(self.variables.len()) else {
            return Err(Want {});
        };
        self.names
            .add_entity(name, Entity::Variable(position, sort))?;
        self.variables.push(sort)?;
        Ok(())
    }

    /// `declare-var`: a new name and a sort.
    pub fn declare_variable(&mut self, name: Spelled<'_>, sort: &Sexp) -> Result<(), ReadEnd>
        ensures step { ReadingGives (λ _. context_of T.denotes self.new) result (spec.declare_variable
            (context_of T.denotes self.old) self.old.logic (spelled_of name.entry) (item_of sort.now)) }
        ensures logic { OnOk result (self.new.logic ≡ self.old.logic) }
    {
        let bytes = name.name.as_slice();
        new_name(&self.names, self.fresh, self.logic, name.place, bytes)?;
        let sort = read_sort(self.logic, &self.names, sort)?;
        self.add_variable(bytes, sort)?;
        Ok(())
    }

    /// `define-sort`: a new name and a sort.
    pub fn define_sort(&mut self, name: Spelled<'_>, sort: &Sexp) -> Result<(), ReadEnd>
        ensures step { ReadingGives (λ _. context_of T.denotes self.new) result (spec.define_sort
            (context_of T.denotes self.old) self.old.logic (spelled_of name.entry) (item_of sort.now)) }
        ensures logic { OnOk result (self.new.logic ≡ self.old.logic) }
    {
        let bytes = name.name.as_slice();
        new_sort_name(&self.names, self.fresh, self.logic, name.place, bytes)?;
        let sort = read_sort(self.logic, &self.names, sort)?;
        self.names.add_sort(bytes, sort)?;
        Ok(())
    }
}

// The values that were written in a file.
ghost use Rattle.std.specs.Prelude.{◌≡◌, [], OnOk, IfOk};
ghost use Rattle.sy_terms.specs.Denoted.{val_of, vals_of};
ghost use Rattle.sy_scope_names.specs.Pools as spec;
ghost use Rattle.sy_scope_names.specs.Kept.{pool_of};

use indexmap::IndexSet;
use std::alloc::Global;
use sy_terms::{Theory, Value, Values, Want, copied_values};

/// Values without repeats, in the order in which they came.
#[derive(Drop)]
pub struct Pool<T: Theory> {
    values: IndexSet<Value<T::Num>>,
}

impl<T: Theory> Pool<T> {
    /// No values. It takes no memory.
    pub fn new(alloc: Global) -> Pool<T>
        ensures { pool_of T.denotes result ≡ [] }
    {
        Pool {
            values: IndexSet::new(alloc),
        }
    }

    /// Appends the value, where it is new.
    fn add_value(&mut self, value: Value<T::Num>) -> Result<(), Want>
        ensures { OnOk result (pool_of T.denotes self.new ≡
            spec.with_value (pool_of T.denotes self.old) (val_of T.denotes value)) }
    {
        self.values.insert(value)?;
        Ok(())
    }

    /// Appends the values that are new, in order.
    pub fn add(&mut self, values: &[Value<T::Num>]) -> Result<(), Want>
        ensures { OnOk result (pool_of T.denotes self.new ≡
            spec.pooled (pool_of T.denotes self.old) (vals_of T.denotes values.now)) }
    {
        for value in values {
            self.add_value(*value)?;
        }
        Ok(())
    }

    /// All values in order.
    pub fn values(&self, alloc: Global) -> Result<Values<T>, Want>
        ensures { IfOk result (λ all. vals_of T.denotes all ≡ pool_of T.denotes self.now) }
    {
        copied_values::<T>(alloc, self.values.as_slice())
    }
}

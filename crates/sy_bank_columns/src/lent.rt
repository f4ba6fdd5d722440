// Rows that are lent or owned.
use std::alloc::Global;
use sy_terms::{Seq, Want};

/// A row: the values that a kept term lends, or values of its own.
#[derive(Drop)]
pub enum Row<'a, V> {
    Lent(&'a [V]),
    Own(Vec<V>),
}

impl<'a, V> Row<'a, V> {
    ghost use Rattle.std.specs.Prelude.{◌≡◌};
    ghost use Rattle.sy_bank_columns.specs.Lent.{row_values};

    /// Its values.
    pub fn as_slice(&self) -> &[V]
        ensures { result.now ≡ row_values self.now }
    {
        match self {
            Row::Lent(values) => values,
            Row::Own(values) => values.as_slice(),
        }
    }
}

impl<'a, V: Copy + Drop> Row<'a, V> {
    ghost use Rattle.std.specs.Prelude.{◌≡◌, IfOk};
    ghost use Rattle.sy_bank_columns.specs.Lent.{row_values};

    /// Its values as a list. Those that are lent are copied. On `Want` the row is dropped.
    pub fn into_values(self, alloc: Global) -> Result<Seq<V>, Want>
        ensures { IfOk result (λ values. values ≡ row_values self.entry) }
    {
        match self {
            Row::Lent(values) => {
                let mut copy = Vec::with_capacity(alloc, values.len())?;
                for value in values {
                    copy.push(*value)?;
                }
                Ok(Seq::from(copy))
            }
            Row::Own(values) => Ok(Seq::from(values)),
        }
    }
}

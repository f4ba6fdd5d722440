// The literals that a phrase writes.
ghost use Rattle.std.specs.Prelude.{◌≡◌, ◌++◌, ◌∷◌, [], OnOk, true};
ghost use Rattle.std.specs.Option.{option_map};
ghost use Rattle.sy_terms.specs.Denoted.{val_of, vals_of};
ghost use Rattle.sy_terms.specs.declared.sort.Sort.TheVariants as sorts;
ghost use Rattle.sy_forms_items.specs.Meant.{phrase_of, phrases_of};
ghost use Rattle.sy_forms_items.specs.Measures as spec;

use crate::phrase::{Phrase, Phrases};
use sy_terms::{Op, Sort, Theory, Value, Values, Want, same_sort};

/// Whether the operator is minus at one integer.
pub fn is_neg(operator: &Op) -> bool
    ensures { result ≡ spec.is_neg operator.now }
{
    match operator {
        Op::Neg => true,
        _ => false,
    }
}

/// The number that stands for minus this integer, where it is above 0.
fn opposite<T: Theory>(whole: i128) -> Option<T::Num>
    requires { T.numeric sorts.Int ≡ true }
    ensures { option_map T.denotes result ≡ spec.minus_numeral whole }
{
    if whole < 1 {
        return None;
    }
    T::of_number(Sort::Int, -whole)
}

/// The value -n of a numeral n of at least 1.
fn negation_of<T: Theory>(value: &Value<T::Num>) -> Option<Value<T::Num>>
    ensures { option_map (val_of T.denotes) result ≡ spec.negation_of (val_of T.denotes value.now) }
{
    match value {
        Value::Truth(_) => None,
        Value::Num(number) => {
            if same_sort(&T::value_sort(value), &Sort::Int) {
                match opposite::<T>(T::number(*number)) {
                    Some(opposite) => Some(Value::Num(opposite)),
                    None => None,
                }
            } else {
                None
            }
        }
    }
}

/// The value -n of a literal n of at least 1.
fn written_negation<T: Theory>(phrase: &Phrase<T>) -> Option<Value<T::Num>>
    ensures { option_map (val_of T.denotes) result ≡ spec.written_negation (phrase_of T.denotes phrase.now) }
{
    match phrase {
        Phrase::Literal(value) => negation_of::<T>(value),
        Phrase::Position(_) => None,
        Phrase::Local(_) => None,
        Phrase::Nonterminal(_) => None,
        Phrase::Operation(_, _) => None,
        Phrase::Invocation(_, _) => None,
        Phrase::Let(_, _) => None,
    }
}

/// The value -n where the only argument is a literal n of at least 1.
fn negated_literal<T: Theory>(arguments: &[Phrase<T>]) -> Option<Value<T::Num>>
    ensures { option_map (val_of T.denotes) result ≡ spec.negated_literal (phrases_of T.denotes arguments.now) }
{
    match arguments {
        [] => None,
        [argument] => written_negation(argument),
        [_, _, ..] => None,
    }
}

/// The value -n where the operator at its arguments is `(- n)` with a numeral n of at least 1.
fn negated<T: Theory>(operator: &Op, arguments: &[Phrase<T>]) -> Option<Value<T::Num>>
    ensures { option_map (val_of T.denotes) result ≡
        spec.literal_negated operator.now (phrases_of T.denotes arguments.now) }
{
    if is_neg(operator) {
        negated_literal(arguments)
    } else {
        None
    }
}

/// Appends the value.
fn note<T: Theory>(out: &mut Values<T>, value: Value<T::Num>) -> Result<(), Want>
    ensures { OnOk result (vals_of T.denotes out.new ≡ vals_of T.denotes out.old ++ val_of T.denotes value ∷ []) }
{
    out.push(value)?;
    Ok(())
}

/// Appends the value, where there is one.
fn note_any<T: Theory>(out: &mut Values<T>, value: Option<Value<T::Num>>) -> Result<(), Want>
    ensures { OnOk result (vals_of T.denotes out.new ≡
        vals_of T.denotes out.old ++ spec.at_most_one (option_map (val_of T.denotes) value)) }
{
    if let Some(value) = value {
        note::<T>(out, value)?;
    }
    Ok(())
}

impl<T: Theory> Phrase<T> {
    /// Appends the values of the literals in the order of writing, and behind n the value -n for each `(- n)` with
    /// a numeral n of at least 1.
    #[cycle(literals)]
    pub fn literals(&self, out: &mut Values<T>) -> Result<(), Want>
        ensures { OnOk result (vals_of T.denotes out.new ≡
            vals_of T.denotes out.old ++ spec.literals_in (phrase_of T.denotes self.now)) }
    {
        match self {
            Phrase::Literal(value) => note::<T>(out, *value),
            Phrase::Position(_) => Ok(()),
            Phrase::Local(_) => Ok(()),
            Phrase::Nonterminal(_) => Ok(()),
            Phrase::Operation(operator, arguments) => {
                arguments.all_literals(out)?;
                note_any::<T>(out, negated(operator, arguments.as_slice()))
            }
            Phrase::Invocation(_, arguments) => arguments.all_literals(out),
            Phrase::Let(bound, inner) => {
                bound.all_literals(out)?;
                inner.literals(out)
            }
        }
    }
}

impl<T: Theory> Phrases<T> {
    /// The same over all phrases.
    #[cycle(literals)]
    fn all_literals(&self, out: &mut Values<T>) -> Result<(), Want>
        ensures { OnOk result (vals_of T.denotes out.new ≡
            vals_of T.denotes out.old ++ spec.all_literals (phrases_of T.denotes self.now.items.items)) }
    {
        for phrase in self.as_slice() {
            phrase.literals(out)?;
        }
        Ok(())
    }
}

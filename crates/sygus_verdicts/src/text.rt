// The texts of verdicts.
ghost use Rattle.std.specs.Prelude.{◌≡◌, ◌++◌, true, All, OnOk};
ghost use Rattle.sy_terms.specs.Denoted.{val_of, vals_of};
ghost use Rattle.sy_terms.specs.Theories.{valid};
ghost use Rattle.sygus_verdicts.specs.Lines as lines;
ghost use Rattle.sygus_verdicts.specs.Verdicts as spec;

use sy_io::Bytes;
use sy_query_limits::FailName;
use sy_reply::{name_text, put};
use sy_scope_causes::Titles;
use sy_seq::Want;
use sy_terms::{Sort, Theory, Value};
use sy_text::{write_numeral, write_symbol, write_vector};

/// Appends a whole number; one below 0 as `(- n)`.
fn put_whole(out: &mut Bytes, number: i128) -> Result<(), Want>
    ensures { OnOk result (out.new ≡ out.old ++ lines.whole_text number) }
{
    if number >= 0 {
        return write_numeral(out, number.unsigned_abs());
    }
    put(out, "(- ")?;
    write_numeral(out, number.unsigned_abs())?;
    put(out, ")")
}

/// Appends the value of a variable.
#[tactic(auto, unfolding(crate::specs::Lines::value_text))]
fn put_value<T: Theory>(out: &mut Bytes, value: &Value<T::Num>) -> Result<(), Want>
    requires { valid (val_of T.denotes value.now) ≡ true }
    ensures { OnOk result (out.new ≡ out.old ++ lines.value_text (val_of T.denotes value.now)) }
{
    match value {
        Value::Truth(true) => put(out, "true"),
        Value::Truth(false) => put(out, "false"),
        Value::Num(number) => {
            let whole = T::number(*number);
            match T::value_sort(value) {
                Sort::Bits(width) => write_vector(out, width, whole as u64),
                Sort::Int => put_whole(out, whole),
                Sort::Bool => unreachable!(),
            }
        }
    }
}

/// Appends the verdict that the definitions solve the problem.
#[tactic(auto, unfolding(crate::specs::Lines::verdict_text))]
pub fn put_holds(out: &mut Bytes, titles: &Titles) -> Result<(), Want>
    ensures { OnOk result (out.new ≡ out.old ++ lines.verdict_text titles.now spec.Holds) }
{
    put(out, "holds")
}

/// Appends the verdict that a proof in text shows that the definitions solve the problem.
#[tactic(auto, unfolding(crate::specs::Lines::verdict_text))]
pub fn put_accepted(out: &mut Bytes, titles: &Titles) -> Result<(), Want>
    ensures { OnOk result (out.new ≡ out.old ++ lines.verdict_text titles.now spec.Accepted) }
{
    put(out, "accepted")
}

/// Appends the verdict that there is no proof in text that shows this.
#[tactic(auto, unfolding(crate::specs::Lines::verdict_text))]
pub fn put_rejected(out: &mut Bytes, titles: &Titles) -> Result<(), Want>
    ensures { OnOk result (out.new ≡ out.old ++ lines.verdict_text titles.now spec.Rejected) }
{
    put(out, "proof rejected")
}

/// Appends the verdict that the body of the function of this number is the first that is no member of its grammar.
#[tactic(auto, unfolding(crate::specs::Lines::verdict_text))]
pub fn put_not_member(out: &mut Bytes, titles: &Titles, function: u32) -> Result<(), Want>
    ensures { OnOk result (out.new ≡ out.old ++ lines.verdict_text titles.now (spec.NotMember function)) }
{
    put(out, "not in grammar ")?;
    match titles.wanted.get(function as usize) {
        Some(title) => write_symbol(out, title.name.as_slice()),
        None => Ok(()),
    }
}

/// Appends the verdict that the definitions violate the problem at these values of its variables.
#[tactic(auto, unfolding(crate::specs::Lines::verdict_text))]
pub fn put_refuted<T: Theory>(
    out: &mut Bytes,
    titles: &Titles,
    values: &[Value<T::Num>],
) -> Result<(), Want>
    requires { All (λ value. valid value ≡ true) (vals_of T.denotes values.now) }
    ensures { OnOk result (out.new ≡ out.old ++ lines.verdict_text titles.now
        (spec.Refuted (vals_of T.denotes values.now))) }
{
    put(out, "refuted at")?;
    put_values::<T>(out, values)
}

/// Appends each value after a space.
fn put_values<T: Theory>(out: &mut Bytes, values: &[Value<T::Num>]) -> Result<(), Want>
    requires { All (λ value. valid value ≡ true) (vals_of T.denotes values.now) }
    ensures { OnOk result (out.new ≡ out.old ++ lines.values_text (vals_of T.denotes values.now)) }
{
    for value in values {
        put(out, " ")?;
        put_value::<T>(out, value)?;
    }
    Ok(())
}

/// Appends the verdict that a limit was reached.
#[tactic(auto, unfolding(crate::specs::Lines::verdict_text))]
pub fn put_budget(out: &mut Bytes, titles: &Titles, name: FailName) -> Result<(), Want>
    ensures { OnOk result (out.new ≡ out.old ++ lines.verdict_text titles.now (spec.Budget name)) }
{
    put(out, "budget ")?;
    put(out, name_text(name))
}

/// Appends the verdict that has the clauses of the definitions' query.
#[tactic(auto, unfolding(crate::specs::Lines::verdict_text))]
pub fn put_clauses(out: &mut Bytes, titles: &Titles, text: &[u8]) -> Result<(), Want>
    ensures { OnOk result (out.new ≡ out.old ++ lines.verdict_text titles.now (spec.Clauses text.now)) }
{
    put(out, "clauses\n")?;
    out.append(text)?;
    Ok(())
}

/// Appends the verdict that the definitions' query has no clauses.
#[tactic(auto, unfolding(crate::specs::Lines::verdict_text))]
pub fn put_no_clauses(out: &mut Bytes, titles: &Titles) -> Result<(), Want>
    ensures { OnOk result (out.new ≡ out.old ++ lines.verdict_text titles.now spec.NoClauses) }
{
    put(out, "no clauses")
}

// Writing sorts, operators and values.
ghost use Rattle.std.specs.Prelude.{◌≡◌, ◌++◌, ◌∷◌, map, true, OnOk, codes};
ghost use Rattle.sy_text.specs.Spelling.{numeral_text};
ghost use Rattle.sy_terms.specs.Denoted.{val_of};
ghost use Rattle.sy_reply.specs.Replies as replies;
ghost use Rattle.sy_reply.specs.Writable.{is_plain_value};

use sy_io::Bytes;
use sy_seq::Want;
use sy_terms::{Op, Sort, Theory, Value};
use sy_terms_operators::spell;
use sy_text::{write_numeral, write_vector};

/// Appends a sort.
#[tactic(auto, unfolding(crate::specs::Replies::sort_text, crate::specs::Replies::bracketed))]
pub fn write_sort(out: &mut Bytes, sort: Sort) -> Result<(), Want>
    ensures { OnOk result (out.new ≡ out.old ++ replies.sort_text sort) }
{
    match sort {
        Sort::Bool => out.append(b"Bool"),
        Sort::Int => out.append(b"Int"),
        Sort::Bits(width) => {
            out.append(b"(_ BitVec ")?;
            write_numeral(out, width as u128)?;
            out.append(b")")
        }
    }
}

/// Appends an operator, with its indices as `(_ NAME I ..)`.
#[tactic(auto, unfolding(crate::specs::Replies::indices, crate::specs::Replies::indexed_text))]
pub fn write_operator(out: &mut Bytes, operator: &Op) -> Result<(), Want>
    ensures { OnOk result (out.new ≡ out.old ++ replies.operator_text operator.now) }
{
    let name = spell(operator);
    match operator {
        Op::Extract(high, low) => write_indexed(out, name, &[*high, *low]),
        Op::Repeat(count) => write_indexed(out, name, &[*count]),
        Op::ZeroExtend(count) => write_indexed(out, name, &[*count]),
        Op::SignExtend(count) => write_indexed(out, name, &[*count]),
        Op::RotateLeft(count) => write_indexed(out, name, &[*count]),
        Op::RotateRight(count) => write_indexed(out, name, &[*count]),
        _ => out.append(name.as_bytes()),
    }
}

/// Appends `(_ NAME I ..)`.
fn write_indexed(out: &mut Bytes, name: &str, indices: &[u8]) -> Result<(), Want>
    ensures { OnOk result (out.new ≡ out.old ++
        replies.bracketed (codes "_" ∷ name.now ∷ map numeral_text indices.now)) }
{
    out.append(b"(_ ")?;
    out.append(name.as_bytes())?;
    for index in indices {
        out.push(b' ')?;
        write_numeral(out, *index as u128)?;
    }
    out.push(b')')
}

/// Appends a value.
#[tactic(auto, unfolding(crate::specs::Replies::value_text))]
pub fn write_value<T: Theory>(out: &mut Bytes, value: &Value<T::Num>) -> Result<(), Want>
    requires { is_plain_value (val_of T.denotes value.now) ≡ true }
    ensures { OnOk result (out.new ≡ out.old ++ replies.value_text (val_of T.denotes value.now)) }
{
    match value {
        Value::Truth(true) => out.append(b"true"),
        Value::Truth(false) => out.append(b"false"),
        Value::Num(number) => {
            let magnitude = T::number(*number);
            match T::value_sort(value) {
                Sort::Bits(width) => write_vector(out, width, magnitude as u64),
                Sort::Int => write_numeral(out, magnitude as u128),
                Sort::Bool => unreachable!(),
            }
        }
    }
}

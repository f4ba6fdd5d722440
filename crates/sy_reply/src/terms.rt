// Writing terms.
ghost use Rattle.std.specs.Prelude.{◌≡◌, ◌<◌, ◌++◌, length, slice_get, OnOk};
ghost use Rattle.sy_terms.specs.Denoted.{expr_of, exprs_of};
ghost use Rattle.sy_reply.specs.Replies as replies;
ghost use Rattle.sy_reply.specs.Writable.{IsDefined, IsWritable, AreWritable};

use crate::symbols::{write_operator, write_value};
use sy_io::Bytes;
use sy_seq::Want;
use sy_terms::{Fun, Term, Terms, Theory};
use sy_text::write_symbol;
use sy_text_items::Name;

/// Appends the name at a place.
fn write_name(out: &mut Bytes, names: &[Name], place: u32) -> Result<(), Want>
    requires { place < length names.now }
    ensures { OnOk result (out.new ≡ out.old ++ replies.name_text (slice_get names.now place)) }
{
    write_symbol(out, names[place as usize].as_slice())
}

/// Appends the name of a definition.
fn write_function(out: &mut Bytes, definitions: &[Name], function: &Fun) -> Result<(), Want>
    requires { IsDefined (length definitions.now) function.now }
    ensures { OnOk result (out.new ≡ out.old ++ replies.function_text definitions.now function.now) }
{
    match function {
        Fun::Defined(number) => write_name(out, definitions, *number),
        Fun::Wanted(_) => unreachable!(),
    }
}

/// Appends a term over arguments and definitions of these names.
#[cycle(terms)]
pub fn write_term<T: Theory>(
    out: &mut Bytes,
    arguments: &[Name],
    definitions: &[Name],
    term: &Term<T>,
) -> Result<(), Want>
    requires { IsWritable (length arguments.now) (length definitions.now) (expr_of T.denotes term.now) }
    ensures { OnOk result (out.new ≡ out.old ++
        replies.term_text arguments.now definitions.now (expr_of T.denotes term.now)) }
{
    match term {
        Term::Const(value) => write_value::<T>(out, value),
        Term::Var(position) => write_name(out, arguments, *position),
        Term::App(operator, parts) => {
            out.append(b"(")?;
            write_operator(out, operator)?;
            write_parts(out, arguments, definitions, parts)?;
            out.append(b")")
        }
        Term::Call(function, parts) => {
            if parts.len() == 0 {
                return write_function(out, definitions, function);
            }
            out.append(b"(")?;
            write_function(out, definitions, function)?;
            write_parts(out, arguments, definitions, parts)?;
            out.append(b")")
        }
        Term::Let(_, _) => unreachable!(),
    }
}

/// Appends each term after a space.
#[cycle(terms)]
fn write_parts<T: Theory>(
    out: &mut Bytes,
    arguments: &[Name],
    definitions: &[Name],
    terms: &Terms<T>,
) -> Result<(), Want>
    requires { AreWritable (length arguments.now) (length definitions.now) (exprs_of T.denotes terms.now.items.items) }
    ensures { OnOk result (out.new ≡ out.old ++
        replies.spaced (replies.terms_text arguments.now definitions.now (exprs_of T.denotes terms.now.items.items))) }
{
    for term in terms.as_slice() {
        out.append(b" ")?;
        write_term(out, arguments, definitions, term)?;
    }
    Ok(())
}

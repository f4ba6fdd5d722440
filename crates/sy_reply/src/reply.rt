// Replies that give definitions.
ghost use Rattle.std.specs.Prelude.{◌≡◌, ◌≤◌, ◌++◌, length, map, OnOk, IfOk};
ghost use Rattle.std.specs.List.{join_with_byte};
ghost use Rattle.sy_terms.specs.Denoted.{expr_of};
ghost use Rattle.sy_grammar_base.specs.Questions.{goal_of, question_of};
ghost use Rattle.sy_reply.specs.Replies as replies;
ghost use Rattle.sy_reply.specs.Writable.{IsWritable, AreTitled, HaveBodies};

use crate::symbols::write_sort;
use crate::terms::write_term;
use std::alloc::Global;
use sy_grammar_base::{Problem, Wanted};
use sy_io::Bytes;
use sy_scope_causes::{Title, Titles};
use sy_seq::Want;
use sy_terms::{Bodies, Sort, Term, Theory};
use sy_text::write_symbol;
use sy_text_items::Name;

/// The reply that gives these bodies: a line `(`, a line `(define-fun NAME (ARGS) SORT BODY)` for each function to be
/// found, in order of declaration, and a line `)`. Each line ends with byte 10. Of the titles and the names of
/// definitions the first are used. A name that can't stand bare stands in bars; an argument stands as `(x s)`, a
/// sort as `Bool`, `Int` or `(_ BitVec w)`, an operator with indices as `(_ extract 3 0)`, a vector in hexadecimal
/// digits where its width is divisible by 4, and else in binary ones, and a definition without arguments without
/// brackets.
pub fn reply_text<T: Theory>(
    alloc: Global,
    titles: &Titles,
    problem: &Problem<T>,
    bodies: &Bodies<T>,
) -> Result<Bytes, Want>
    // At least as many titles as functions to be found, and as many argument names in each as its function has
    // arguments.
    requires titles { AreTitled titles.now.wanted (question_of T.denotes problem.now).goals }
    // At least as many names as definitions.
    requires names { length problem.now.defs ≤ length titles.now.defined }
    // One body for each function to be found, that fits and holds no `let`.
    requires bodies { HaveBodies (length problem.now.defs)
        (question_of T.denotes problem.now).goals (map (expr_of T.denotes) bodies.now) }
    ensures { IfOk result (λ text. text ≡
        replies.reply_text titles.now (question_of T.denotes problem.now) (map (expr_of T.denotes) bodies.now)) }
{
    let mut out = Bytes::new(alloc);
    out.append(b"(\n")?;
    let answers = titles
        .wanted
        .as_slice()
        .iter()
        .zip(problem.wanted.as_slice())
        .zip(bodies.as_slice());
    for ((title, function), body) in answers {
        write_definition(&mut out, titles.defined.as_slice(), title, function, body)?;
    }
    out.append(b")\n")?;
    Ok(out)
}

/// Appends a definition and the end of its line.
#[tactic(auto, unfolding(crate::specs::Replies::definition_text, crate::specs::Replies::bracketed))]
fn write_definition<T: Theory>(
    out: &mut Bytes,
    definitions: &[Name],
    title: &Title,
    function: &Wanted<T>,
    body: &Term<T>,
) -> Result<(), Want>
    requires { IsWritable (length title.now.args) (length definitions.now) (expr_of T.denotes body.now) }
    ensures { OnOk result (out.new ≡ out.old ++ replies.line (replies.definition_text definitions.now title.now
        (goal_of T.denotes function.now) (expr_of T.denotes body.now))) }
{
    let arguments = title.args.as_slice();
    out.append(b"(define-fun ")?;
    write_symbol(out, title.name.as_slice())?;
    out.append(b" (")?;
    write_arguments(out, arguments, function.args.as_slice())?;
    out.append(b") ")?;
    write_sort(out, function.sort)?;
    out.append(b" ")?;
    write_term(out, arguments, definitions, body)?;
    out.append(b")\n")
}

/// Appends the arguments, each as `(x s)`, with one space between them.
fn write_arguments(out: &mut Bytes, names: &[Name], sorts: &[Sort]) -> Result<(), Want>
    ensures { OnOk result (out.new ≡ out.old ++ join_with_byte 32 (replies.arguments_text names.now sorts.now)) }
{
    for (i, (name, sort)) in names.iter().zip(sorts).enumerate() {
        if i > 0 {
            out.append(b" ")?;
        }
        write_argument(out, name, *sort)?;
    }
    Ok(())
}

/// Appends an argument `(x s)`.
#[tactic(auto, unfolding(crate::specs::Replies::argument_text, crate::specs::Replies::bracketed))]
fn write_argument(out: &mut Bytes, name: &Name, sort: Sort) -> Result<(), Want>
    ensures { OnOk result (out.new ≡ out.old ++ replies.argument_text name.now sort) }
{
    out.append(b"(")?;
    write_symbol(out, name.as_slice())?;
    out.append(b" ")?;
    write_sort(out, sort)?;
    out.append(b")")
}

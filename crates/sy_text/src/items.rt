// Reading nested lists.
ghost use Rattle.std.specs.Prelude.{◌≡◌, ◌≤◌, ◌<◌, ◌+◌, ◌-◌, ◌*◌, ◌^◌, ◌∷◌, [], length, suc, drop, IfOk, MatchOption};
ghost use Rattle.std.specs.Prelude.{ℕ, List, ◌++◌, true, false, IfSome, IfNone, IfErr};
ghost use Rattle.sy_text.specs.Grammar.{is_layout, is_blank, IsItem, StandsInFront, Reads, EndsBlank};
ghost use Rattle.sy_text_items.specs.Items.{Item, Placed};
ghost use Rattle.sy_text.specs.Reading as reading;
ghost use Rattle.sy_text.specs.Reading.{TextGives, FaultBelow, after_layout};
ghost use Rattle.sy_text.specs.Spelling.{ItemFits};
ghost use Rattle.sy_text_items.specs.Views.{item_of, command_of};

use crate::fault::TextEnd;
use crate::lexicon::skip_layout;
use crate::reader::read_atom;
use std::alloc::Global;
use sy_text_items::{Place, Sexp, Sexps, TextFault};

/// How many lists may be open at once.
const OPEN_MAX: usize = 1200;

/// The first byte and the bytes behind it.
fn split_front(bytes: &[u8]) -> Option<(u8, &[u8])>
    ensures { MatchOption result (bytes.now ≡ []) (λ x. bytes.now ≡ x.0 ∷ x.1.now) }
{
    match bytes {
        [] => None,
        [byte, rest @ ..] => Some((*byte, rest)),
    }
}

/// The items up to the bracket that closes the list which began at `start`, where `depth` lists are open.
#[cycle(nested)]
fn read_items(
    alloc: Global,
    total: usize,
    depth: usize,
    start: usize,
    bytes: &[u8],
) -> Result<(Sexps, &[u8]), TextEnd>
    requires within { length bytes.now ≤ total }
    requires open { depth ≤ 1200 }
    ensures exact { TextGives (λ x.
        (x.0, x.1.now)) result (reading.items_at (suc (length bytes.now)) total depth start bytes.now) }
    ensures shorter { IfOk result (λ x. length x.1.now < length bytes.now) }
{
    let mut items = Sexps::new(alloc);
    let mut left = bytes;
    loop {
        let front = skip_layout(left);
        let Some((byte, rest)) = split_front(front) else {
            return Err(TextEnd::Fault(TextFault::Unclosed(start)));
        };
        if byte == b')' {
            return Ok((items, rest));
        }
        let (item, behind) = read_item(alloc, total, depth, front)?;
        items.push(item)?;
        left = behind;
    }
}

/// The list or atom at the front, where `depth` lists are open.
#[cycle(nested)]
fn read_item(
    alloc: Global,
    total: usize,
    depth: usize,
    bytes: &[u8],
) -> Result<(Sexp, &[u8]), TextEnd>
    requires within { length bytes.now ≤ total }
    requires open { depth ≤ 1200 }
    ensures exact { TextGives (λ x. (item_of x.0, x.1.now)) result (reading.item_by (reading.items_at (length bytes.now)
        total (depth + 1) (total - length bytes.now)) total depth (total - length bytes.now) bytes.now) }
    ensures shorter { IfOk result (λ x. length x.1.now < length bytes.now) }
{
    let start = total - bytes.len();
    let place = Place { at: start };
    let Some((byte, rest)) = split_front(bytes) else {
        return Err(TextEnd::Fault(TextFault::Unclosed(start)));
    };
    if byte != b'(' {
        let (atom, left) = read_atom(alloc, total, start, bytes)?;
        return Ok((Sexp::Atom(atom, place), left));
    }
    if depth == OPEN_MAX {
        return Err(TextEnd::Fault(TextFault::TooDeep(start)));
    }
    let (items, left) = read_items(alloc, total, depth + 1, start, rest)?;
    Ok((Sexp::List(items, place), left))
}

/// The next item from `at` on, where no list is open, and the offset behind it; `None` where only
/// white space and comments are left. White space is tabs, line feeds, carriage returns and blanks. A comment begins
/// with `;` and ends with its line, at a line feed, a carriage return or the end. A fault is the leftmost one.
pub fn next_command(
    alloc: Global,
    bytes: &[u8],
    at: usize,
) -> Result<Option<(Sexp, usize)>, TextEnd>
    requires { at ≤ length bytes.now }
    // Which item it is, or which fault, and where.
    ensures exact { TextGives command_of result (reading.command_at (length bytes.now) (drop at bytes.now)) }
    // What is read is spelled there by the grammar.
    ensures found { IfOk result (λ answer.
        IfSome answer (λ x. StandsInFront (item_of x.0) x.1 (length bytes.now) (drop at bytes.now))) }
    // At least a byte is taken, and at most all.
    ensures forward { IfOk result (λ answer. IfSome answer (λ x. (at < x.1) × (x.1 ≤ length bytes.now))) }
    // The places of what is read lie within the bytes, and so does a fault.
    ensures places { IfOk result (λ answer. IfSome answer (λ x. Placed (length bytes.now) (item_of x.0))) }
    ensures fault { IfErr result (λ e. FaultBelow (length bytes.now) e) }
    // What is read can be written.
    ensures fits { IfOk result (λ answer. IfSome answer (λ x. ItemFits 1200 (item_of x.0))) }
    // `None` is answered exactly where only white space and comments are left.
    ensures none { IfOk result (λ answer. IfNone answer (is_blank false (drop at bytes.now) ≡ true)) }
    ensures blank { is_blank false (drop at bytes.now) ≡ true → EndsBlank result }
    // What is spelled there by the grammar is read, apart from places, unless memory runs out.
    ensures only { (x : Item) (gap text rest : List ℕ) → is_layout false gap ≡ true → IsItem 0 x text rest →
        drop at bytes.now ≡ gap ++ (text ++ rest) → Reads x (length bytes.now - length rest) result }
{
    read_command(alloc, bytes, at)
}

fn read_command(alloc: Global, bytes: &[u8], at: usize) -> Result<Option<(Sexp, usize)>, TextEnd>
    requires { at ≤ length bytes.now }
    ensures exact { TextGives command_of result (reading.command_at (length bytes.now) (drop at bytes.now)) }
    ensures forward { IfOk result (λ answer. IfSome answer (λ x. (at < x.1) × (x.1 ≤ length bytes.now))) }
{
    let total = bytes.len();
    let (_, tail) = bytes.split_at(at);
    let front = skip_layout(tail);
    let Some((byte, _)) = split_front(front) else {
        return Ok(None);
    };
    if byte == b')' {
        return Err(TextEnd::Fault(TextFault::Stray(total - front.len())));
    }
    let (item, left) = read_item(alloc, total, 0, front)?;
    Ok(Some((item, total - left.len())))
}

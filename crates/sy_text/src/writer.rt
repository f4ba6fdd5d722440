// Writing items.
ghost use Rattle.std.specs.Prelude.{◌≡◌, ◌≤◌, ◌<◌, ◌+◌, ◌*◌, ◌^◌, ◌++◌, length, OnOk, IfOk, Contains};
ghost use Rattle.sy_text.specs.Spelling as spelling;
ghost use Rattle.sy_text.specs.Spelling.{AtomFits, ItemFits, ItemsFit};
ghost use Rattle.std.specs.Prelude.{ℕ, List, ◌-◌, true};
ghost use Rattle.sy_text.specs.Grammar.{ReadAs};
ghost use Rattle.sy_text.specs.Reading.{command_at};
ghost use Rattle.sy_text.specs.Spelling.{parted};
ghost use Rattle.sy_text_items.specs.Views.{item_of};
ghost use Rattle.sy_text_items.specs.Lexicon.{symbol_byte};

use crate::lexicon::{is_digit, is_symbol_byte};
use std::alloc::Global;
use sy_io::Bytes;
use sy_seq::Want;
use sy_text_items::{Atom, Sexp, Sexps};

fn all_symbol_bytes(bytes: &[u8]) -> bool
    ensures { result ≡ spelling.all_bytes symbol_byte bytes.now }
{
    for byte in bytes {
        if !is_symbol_byte(*byte) {
            return false;
        }
    }
    true
}

#[tactic(auto, unfolding(crate::specs::Spelling::bare))]
fn is_bare(name: &[u8]) -> bool
    ensures { result ≡ spelling.bare name.now }
{
    match name {
        [] => false,
        [first, ..] => !is_digit(*first) && all_symbol_bytes(name),
    }
}

/// Appends a symbol, in bars unless its bytes spell it without them.
#[tactic(auto, unfolding(crate::specs::Spelling::symbol_text))]
pub fn write_symbol(out: &mut Bytes, name: &[u8]) -> Result<(), Want>
    ensures { OnOk result (out.new ≡ out.old ++ spelling.symbol_text name.now) }
{
    if is_bare(name) {
        return out.append(name);
    }
    out.push(b'|')?;
    out.append(name)?;
    out.push(b'|')?;
    Ok(())
}

fn write_doubled(out: &mut Bytes, content: &[u8]) -> Result<(), Want>
    ensures { OnOk result (out.new ≡ out.old ++ spelling.doubled content.now) }
{
    for byte in content {
        if *byte == b'"' {
            out.push(b'"')?;
        }
        out.push(*byte)?;
    }
    Ok(())
}

#[tactic(auto, unfolding(crate::specs::Spelling::digit_of))]
fn digit_of(n: u8) -> u8
    requires { n < 16 }
    ensures { result ≡ spelling.digit_of n }
{
    if n < 10 { n + 48 } else { n + 87 }
}

#[tactic(auto, unfolding(crate::specs::Spelling::digits_of))]
fn write_digits(out: &mut Bytes, count: usize, base: u128, n: u128) -> Result<(), Want>
    requires low { 2 ≤ base }
    requires high { base ≤ 16 }
    ensures { OnOk result (out.new ≡ out.old ++ spelling.digits_of count base n) }
{
    if count == 0 {
        return Ok(());
    }
    write_digits(out, count - 1, base, n / base)?;
    out.push(digit_of((n % base) as u8))
}

#[tactic(auto, unfolding(crate::specs::Spelling::decimal_len))]
fn decimal_len(most: usize, n: u128) -> usize
    requires { most < 100 }
    ensures value { result ≡ spelling.decimal_len most n }
    ensures bound { result ≤ most + 1 }
{
    if most == 0 || n < 10 {
        1
    } else {
        decimal_len(most - 1, n / 10) + 1
    }
}

/// Appends a number in decimal.
pub fn write_numeral(out: &mut Bytes, n: u128) -> Result<(), Want>
    ensures { OnOk result (out.new ≡ out.old ++ spelling.numeral_text n) }
{
    write_digits(out, decimal_len(38, n), 10, n)
}

/// Appends a bit vector: `#x` and lower case digits where the width is divisible by 4, and otherwise
/// `#b` and one digit for each bit.
#[tactic(auto, unfolding(crate::specs::Spelling::vector_text))]
pub fn write_vector(out: &mut Bytes, width: u8, n: u64) -> Result<(), Want>
    ensures { OnOk result (out.new ≡ out.old ++ spelling.vector_text width n) }
{
    out.push(b'#')?;
    if width % 4 == 0 {
        out.push(b'x')?;
        write_digits(out, (width / 4) as usize, 16, n as u128)
    } else {
        out.push(b'b')?;
        write_digits(out, width as usize, 2, n as u128)
    }
}

#[tactic(auto, unfolding(crate::specs::Spelling::atom_text))]
fn write_atom(out: &mut Bytes, atom: &Atom) -> Result<(), Want>
    ensures { OnOk result (out.new ≡ out.old ++ spelling.atom_text atom.now) }
{
    match atom {
        Atom::Symbol(name) => write_symbol(out, name.as_slice()),
        Atom::Keyword(name) => {
            out.push(b':')?;
            out.append(name.as_slice())
        }
        Atom::Numeral(n) => write_numeral(out, *n),
        Atom::Decimal(name) => out.append(name.as_slice()),
        Atom::Bits(width, n) => write_vector(out, *width, *n),
        Atom::Text(content) => {
            out.push(b'"')?;
            write_doubled(out, content.as_slice())?;
            out.push(b'"')
        }
    }
}

#[cycle(writing)]
fn write_item(out: &mut Bytes, item: &Sexp) -> Result<(), Want>
    ensures { OnOk result (out.new ≡ out.old ++ spelling.item_text (item_of item.now)) }
{
    match item {
        Sexp::Atom(atom, _) => write_atom(out, atom),
        Sexp::List(items, _) => {
            out.push(b'(')?;
            write_inner(out, items)
        }
    }
}

/// The items with one space between them, and the closing bracket.
#[cycle(writing)]
fn write_inner(out: &mut Bytes, items: &Sexps) -> Result<(), Want>
    ensures { OnOk result (out.new ≡ out.old ++ spelling.inner_text items.now) }
{
    for i in 0..items.len() {
        let Some(item) = items.get(i) else {
            break;
        };
        if i > 0 {
            out.push(b' ')?;
        }
        write_item(out, item)?;
    }
    out.push(b')')
}

/// The item as text, its parts separated by one space.
pub fn write_sexp(alloc: Global, s: &Sexp) -> Result<Bytes, Want>
    requires { ItemFits 1200 (item_of s.now) }
    ensures text { IfOk result (λ text. text ≡ spelling.item_text (item_of s.now)) }
    // What is written is read again, apart from places, before white space, a closing bracket or the end.
    ensures again { IfOk result (λ text. (total : ℕ) (rest : List ℕ) →
        parted rest ≡ true → ReadAs (item_of s.now) (total - length rest) (command_at total (text ++ rest))) }
{
    write_item_alone(alloc, s)
}

/// The same for any item.
pub fn write_item_alone(alloc: Global, s: &Sexp) -> Result<Bytes, Want>
    ensures { IfOk result (λ text. text ≡ spelling.item_text (item_of s.now)) }
{
    let mut out = Bytes::new(alloc);
    write_item(&mut out, s)?;
    Ok(out)
}

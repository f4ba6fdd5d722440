// Reading one atom, from left to right.
ghost use Rattle.std.specs.Prelude.{◌≡◌, ◌≤◌, ◌<◌, ◌+◌, ◌-◌, ◌*◌, ◌^◌, ◌++◌, length, IfOk, OnOk, OnErr, MatchOption, false, []};
ghost use Rattle.std.specs.List.{prefix_len};
ghost use Rattle.sy_text_items.specs.Lexicon.{value_in, symbol_byte, bar_content, digit, hexadecimal_digit, binary_digit};
ghost use Rattle.sy_text.specs.Reading as reading;
ghost use Rattle.sy_text.specs.Reading.{TextGives};

use crate::fault::TextEnd;
use crate::lexicon::{
    digit_value, is_bar_content, is_binary_digit, is_digit, is_hexadecimal_digit, is_quotable,
    is_separator, is_symbol_byte,
};
use std::alloc::Global;
use sy_seq::{Seq, Want};
use sy_text_items::{Atom, Name, TextFault};

/// The greatest numeral.
const NUMERAL_MAX: u128 = (1 << 127) - 1;

/// Appends the bytes.
fn append(name: &mut Name, bytes: &[u8]) -> Result<(), Want>
    ensures { OnOk result (name.new ≡ name.old ++ bytes.now) }
{
    for byte in bytes {
        name.push(*byte)?;
    }
    Ok(())
}

fn name_of(alloc: Global, bytes: &[u8]) -> Result<Name, Want>
    ensures { IfOk result (λ name. name ≡ bytes.now) }
{
    let mut name = Seq::new(alloc);
    append(&mut name, bytes)?;
    Ok(name)
}

// How many bytes from the front on are of a class.
fn symbol_len(bytes: &[u8]) -> usize
    ensures value { result ≡ prefix_len symbol_byte bytes.now }
    ensures bound { result ≤ length bytes.now }
{
    bytes
        .iter()
        .take_while(|byte| is_symbol_byte(**byte))
        .count()
}

fn content_len(bytes: &[u8]) -> usize
    ensures value { result ≡ prefix_len bar_content bytes.now }
    ensures bound { result ≤ length bytes.now }
{
    bytes
        .iter()
        .take_while(|byte| is_bar_content(**byte))
        .count()
}

fn digits_len(bytes: &[u8]) -> usize
    ensures value { result ≡ prefix_len digit bytes.now }
    ensures bound { result ≤ length bytes.now }
{
    bytes.iter().take_while(|byte| is_digit(**byte)).count()
}

fn hexadecimal_len(bytes: &[u8]) -> usize
    ensures value { result ≡ prefix_len hexadecimal_digit bytes.now }
    ensures bound { result ≤ length bytes.now }
{
    bytes
        .iter()
        .take_while(|byte| is_hexadecimal_digit(**byte))
        .count()
}

fn binary_len(bytes: &[u8]) -> usize
    ensures value { result ≡ prefix_len binary_digit bytes.now }
    ensures bound { result ≤ length bytes.now }
{
    bytes
        .iter()
        .take_while(|byte| is_binary_digit(**byte))
        .count()
}

#[tactic(auto, unfolding(crate::specs::Reading::missing))]
fn missing(total: usize, start: usize, left: &[u8]) -> TextFault
    requires { length left.now ≤ total }
    ensures { result ≡ reading.missing total start left.now }
{
    if left.is_empty() {
        TextFault::Unclosed(start)
    } else {
        TextFault::BadByte(total - left.len())
    }
}

/// Whether an atom without a closing sign may end there.
#[tactic(auto, unfolding(crate::specs::Reading::may_follow))]
fn may_follow(left: &[u8]) -> bool
    ensures { result ≡ reading.may_follow left.now }
{
    match left {
        [] => true,
        [byte, ..] => is_separator(*byte),
    }
}

#[tactic(auto, unfolding(crate::specs::Reading::ended))]
fn ended(total: usize, atom: Atom, left: &[u8]) -> Result<(Atom, &[u8]), TextEnd>
    requires { length left.now ≤ total }
    ensures { TextGives (λ x. (x.0, x.1.now)) result (reading.ended total atom left.now) }
{
    if may_follow(left) {
        Ok((atom, left))
    } else {
        Err(TextEnd::Fault(TextFault::BadByte(total - left.len())))
    }
}

#[tactic(auto, unfolding(crate::specs::Reading::symbol_at))]
fn read_symbol(alloc: Global, total: usize, bytes: &[u8]) -> Result<(Atom, &[u8]), TextEnd>
    requires { length bytes.now ≤ total }
    ensures { TextGives (λ x. (x.0, x.1.now)) result (reading.symbol_at total bytes.now) }
{
    let count = symbol_len(bytes);
    let (word, left) = bytes.split_at(count);
    ended(total, Atom::Symbol(name_of(alloc, word)?), left)
}

#[tactic(auto, unfolding(crate::specs::Reading::closing_bar))]
fn closing_bar(
    total: usize,
    start: usize,
    atom: Atom,
    left: &[u8],
) -> Result<(Atom, &[u8]), TextEnd>
    requires { length left.now ≤ total }
    ensures { TextGives (λ x. (x.0, x.1.now)) result (reading.closing_bar total start atom left.now) }
{
    match left {
        [] => Err(TextEnd::Fault(TextFault::Unclosed(start))),
        [b'|', rest @ ..] => Ok((atom, rest)),
        [_, ..] => Err(TextEnd::Fault(TextFault::BadByte(total - left.len()))),
    }
}

#[tactic(auto, unfolding(crate::specs::Reading::barred_at))]
fn read_barred(
    alloc: Global,
    total: usize,
    start: usize,
    bytes: &[u8],
) -> Result<(Atom, &[u8]), TextEnd>
    requires { length bytes.now ≤ total }
    ensures { TextGives (λ x. (x.0, x.1.now)) result (reading.barred_at total start bytes.now) }
{
    let count = content_len(bytes);
    let (content, left) = bytes.split_at(count);
    closing_bar(total, start, Atom::Symbol(name_of(alloc, content)?), left)
}

#[tactic(auto, unfolding(crate::specs::Reading::text_at))]
fn read_text(
    alloc: Global,
    total: usize,
    start: usize,
    bytes: &[u8],
) -> Result<(Atom, &[u8]), TextEnd>
    requires { length bytes.now ≤ total }
    ensures { TextGives (λ x. (x.0, x.1.now)) result (reading.text_at total start false [] bytes.now) }
{
    let mut content = Seq::new(alloc);
    let mut quote = false;
    let mut left = bytes;
    while let [byte, rest @ ..] = left {
        if quote {
            if *byte != b'"' {
                break;
            }
            content.push(b'"')?;
            quote = false;
        } else if *byte == b'"' {
            quote = true;
        } else if is_quotable(*byte) {
            content.push(*byte)?;
        } else {
            return Err(TextEnd::Fault(TextFault::BadByte(total - left.len())));
        }
        left = rest;
    }
    if quote {
        Ok((Atom::Text(content), left))
    } else {
        Err(TextEnd::Fault(TextFault::Unclosed(start)))
    }
}

#[tactic(auto, unfolding(crate::specs::Reading::keyword_at))]
fn read_keyword(
    alloc: Global,
    total: usize,
    start: usize,
    bytes: &[u8],
) -> Result<(Atom, &[u8]), TextEnd>
    requires { length bytes.now ≤ total }
    ensures { TextGives (λ x. (x.0, x.1.now)) result (reading.keyword_at total start bytes.now) }
{
    let count = symbol_len(bytes);
    if count == 0 {
        return Err(TextEnd::Fault(missing(total, start, bytes)));
    }
    let (word, left) = bytes.split_at(count);
    ended(total, Atom::Keyword(name_of(alloc, word)?), left)
}

/// The number that the digits stand for; `None` where it is 2^127 or more.
fn value_of(digits: &[u8], base: u128) -> Option<u128>
    requires { 1 ≤ base }
    ensures { MatchOption result (2 ^ 127 ≤ value_in base digits.now) (λ value. (value ≡ value_in base digits.now) ×
        (value < 2 ^ 127)) }
{
    let mut value: u128 = 0;
    for digit in digits {
        let next = base
            .checked_mul(value)?
            .checked_add(digit_value(*digit) as u128)?;
        if next > NUMERAL_MAX {
            return None;
        }
        value = next;
    }
    Some(value)
}

#[tactic(auto, unfolding(crate::specs::Reading::vector_of, crate::specs::Reading::literal_read))]
fn vector<'a>(
    total: usize,
    start: usize,
    base: u128,
    bits: usize,
    digits: &[u8],
    left: &'a [u8],
) -> Result<(Atom, &'a [u8]), TextEnd>
    requires left_fits { length left.now ≤ total }
    requires base_is { 1 ≤ base }
    requires value_fits { bits * length digits.now ≤ 64 → value_in base digits.now < 2 ^ 64 }
    ensures { TextGives (λ x. (x.0, x.1.now)) result (reading.vector_of total start base bits digits.now left.now) }
{
    let width = bits.saturating_mul(digits.len());
    if !may_follow(left) {
        return Err(TextEnd::Fault(TextFault::BadByte(total - left.len())));
    }
    if width > 64 {
        return Err(TextEnd::Fault(TextFault::LiteralRange(start)));
    }
    match value_of(digits, base) {
        Some(value) => Ok((Atom::Bits(width as u8, value as u64), left)),
        None => Err(TextEnd::Fault(TextFault::LiteralRange(start))),
    }
}

#[tactic(auto, unfolding(crate::specs::Reading::integer_at, crate::specs::Reading::literal_read))]
fn integer<'a>(
    total: usize,
    start: usize,
    digits: &[u8],
    left: &'a [u8],
) -> Result<(Atom, &'a [u8]), TextEnd>
    requires { length left.now ≤ total }
    ensures { TextGives (λ x. (x.0, x.1.now)) result (reading.integer_at total start digits.now left.now) }
{
    if !may_follow(left) {
        return Err(TextEnd::Fault(TextFault::BadByte(total - left.len())));
    }
    match value_of(digits, 10) {
        Some(value) => Ok((Atom::Numeral(value), left)),
        None => Err(TextEnd::Fault(TextFault::LiteralRange(start))),
    }
}

#[tactic(auto, unfolding(crate::specs::Reading::decimal_at))]
fn read_decimal<'a>(
    alloc: Global,
    total: usize,
    start: usize,
    whole: &[u8],
    bytes: &'a [u8],
) -> Result<(Atom, &'a [u8]), TextEnd>
    requires { length bytes.now ≤ total }
    ensures { TextGives (λ x. (x.0, x.1.now)) result (reading.decimal_at total start whole.now bytes.now) }
{
    let count = digits_len(bytes);
    if count == 0 {
        return Err(TextEnd::Fault(missing(total, start, bytes)));
    }
    let (part, left) = bytes.split_at(count);
    let mut digits = name_of(alloc, whole)?;
    digits.push(b'.')?;
    append(&mut digits, part)?;
    ended(total, Atom::Decimal(digits), left)
}

#[tactic(auto, unfolding(crate::specs::Reading::number_at))]
fn read_number<'a>(
    alloc: Global,
    total: usize,
    start: usize,
    digits: &[u8],
    left: &'a [u8],
) -> Result<(Atom, &'a [u8]), TextEnd>
    requires { length left.now ≤ total }
    ensures { TextGives (λ x. (x.0, x.1.now)) result (reading.number_at total start digits.now left.now) }
{
    match left {
        [b'.', rest @ ..] => read_decimal(alloc, total, start, digits, rest),
        _ => integer(total, start, digits, left),
    }
}

#[tactic(auto, unfolding(crate::specs::Reading::numeral_at))]
fn read_numeral(
    alloc: Global,
    total: usize,
    start: usize,
    bytes: &[u8],
) -> Result<(Atom, &[u8]), TextEnd>
    requires fits { length bytes.now + start ≤ total }
    requires some { 0 < length bytes.now }
    ensures { TextGives (λ x. (x.0, x.1.now)) result (reading.numeral_at total start bytes.now) }
{
    let count = digits_len(bytes);
    if bytes[0] == b'0' && count > 1 {
        return Err(TextEnd::Fault(TextFault::BadByte(start + 1)));
    }
    let (digits, left) = bytes.split_at(count);
    read_number(alloc, total, start, digits, left)
}

#[tactic(auto, unfolding(crate::specs::Reading::hexadecimal_at))]
fn read_hexadecimal(total: usize, start: usize, bytes: &[u8]) -> Result<(Atom, &[u8]), TextEnd>
    requires { length bytes.now ≤ total }
    ensures { TextGives (λ x. (x.0, x.1.now)) result (reading.hexadecimal_at total start bytes.now) }
{
    let count = hexadecimal_len(bytes);
    if count == 0 {
        return Err(TextEnd::Fault(missing(total, start, bytes)));
    }
    let (digits, left) = bytes.split_at(count);
    vector(total, start, 16, 4, digits, left)
}

#[tactic(auto, unfolding(crate::specs::Reading::binary_at))]
fn read_binary(total: usize, start: usize, bytes: &[u8]) -> Result<(Atom, &[u8]), TextEnd>
    requires { length bytes.now ≤ total }
    ensures { TextGives (λ x. (x.0, x.1.now)) result (reading.binary_at total start bytes.now) }
{
    let count = binary_len(bytes);
    if count == 0 {
        return Err(TextEnd::Fault(missing(total, start, bytes)));
    }
    let (digits, left) = bytes.split_at(count);
    vector(total, start, 2, 1, digits, left)
}

#[tactic(auto, unfolding(crate::specs::Reading::vector_at))]
fn read_vector(total: usize, start: usize, bytes: &[u8]) -> Result<(Atom, &[u8]), TextEnd>
    requires { length bytes.now ≤ total }
    ensures { TextGives (λ x. (x.0, x.1.now)) result (reading.vector_at total start bytes.now) }
{
    match bytes {
        [] => Err(TextEnd::Fault(TextFault::Unclosed(start))),
        [b'x', rest @ ..] => read_hexadecimal(total, start, rest),
        [b'b', rest @ ..] => read_binary(total, start, rest),
        [_, ..] => Err(TextEnd::Fault(TextFault::BadByte(total - bytes.len()))),
    }
}

/// The atom at the front.
#[tactic(auto, unfolding(crate::specs::Reading::atom_at))]
pub fn read_atom(
    alloc: Global,
    total: usize,
    start: usize,
    bytes: &[u8],
) -> Result<(Atom, &[u8]), TextEnd>
    requires { length bytes.now + start ≤ total }
    ensures { TextGives (λ x. (x.0, x.1.now)) result (reading.atom_at total start bytes.now) }
{
    match bytes {
        [] => Err(TextEnd::Fault(TextFault::Unclosed(start))),
        [b'|', rest @ ..] => read_barred(alloc, total, start, rest),
        [b'"', rest @ ..] => read_text(alloc, total, start, rest),
        [b':', rest @ ..] => read_keyword(alloc, total, start, rest),
        [b'#', rest @ ..] => read_vector(total, start, rest),
        [byte, ..] => {
            if is_digit(*byte) {
                read_numeral(alloc, total, start, bytes)
            } else if is_symbol_byte(*byte) {
                read_symbol(alloc, total, bytes)
            } else {
                Err(TextEnd::Fault(TextFault::BadByte(start)))
            }
        }
    }
}

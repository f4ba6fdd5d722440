// A second reading for the tests: it takes one byte after the other, and atoms by a table of states.
use std::process::Abort;
use sy_text_items::TextFault;

const SYMBOLS: &[u8] =
    b"0123456789abcdefghijklmnopqrstuvwxyzABCDEFGHIJKLMNOPQRSTUVWXYZ~!@$%^&*_-+=<>.?/";

const DIGITS: &[u8] = b"0123456789";

const HEXADECIMAL_DIGITS: &[u8] = b"0123456789abcdefABCDEF";

const BINARY_DIGITS: &[u8] = b"01";

const SEPARATORS: &[u8] = b"\t\n\r ();\"|";

// The states of an atom. Those from `COLON` to `QUOTES` may not be its last.
const START: u8 = 0;

const SYMBOL: u8 = 1;

const KEYWORD: u8 = 2;

const ZERO: u8 = 3;

const WHOLE: u8 = 4;

const FRACTION: u8 = 5;

const HEXADECIMAL: u8 = 6;

const BINARY: u8 = 7;

const BEHIND_BARS: u8 = 8;

const BEHIND_QUOTES: u8 = 9;

const COLON: u8 = 10;

const POINT: u8 = 11;

const HASH: u8 = 12;

const HEXADECIMAL_SIGN: u8 = 13;

const BINARY_SIGN: u8 = 14;

const BARS: u8 = 15;

const QUOTES: u8 = 16;

/// Where the atom goes on: behind a state and one of these bytes stands the other state. The first row counts.
const MOVES: [(u8, &[u8], u8); 23] = [
    (START, b"|", BARS),
    (START, b"\"", QUOTES),
    (START, b":", COLON),
    (START, b"#", HASH),
    (START, b"0", ZERO),
    (START, DIGITS, WHOLE),
    (START, SYMBOLS, SYMBOL),
    (SYMBOL, SYMBOLS, SYMBOL),
    (COLON, SYMBOLS, KEYWORD),
    (KEYWORD, SYMBOLS, KEYWORD),
    (ZERO, b".", POINT),
    (WHOLE, b".", POINT),
    (WHOLE, DIGITS, WHOLE),
    (POINT, DIGITS, FRACTION),
    (FRACTION, DIGITS, FRACTION),
    (HASH, b"b", BINARY_SIGN),
    (HASH, b"x", HEXADECIMAL_SIGN),
    (HEXADECIMAL_SIGN, HEXADECIMAL_DIGITS, HEXADECIMAL),
    (HEXADECIMAL, HEXADECIMAL_DIGITS, HEXADECIMAL),
    (BINARY_SIGN, BINARY_DIGITS, BINARY),
    (BINARY, BINARY_DIGITS, BINARY),
    (BARS, b"|", BEHIND_BARS),
    (QUOTES, b"\"", BEHIND_QUOTES),
];

/// The state behind the byte, where the byte belongs to the atom.
fn moved(state: u8, byte: u8) -> Option<u8> {
    for (from, bytes, to) in &MOVES {
        if *from == state && bytes.contains(&byte) {
            return Some(*to);
        }
    }
    let is_printed = byte >= 32 && byte != 127 || b"\t\n\r".contains(&byte);
    match state {
        BARS if is_printed && byte != b'\\' => Some(BARS),
        QUOTES if is_printed => Some(QUOTES),
        BEHIND_QUOTES if byte == b'"' => Some(QUOTES),
        _ => None,
    }
}

/// The offset behind the atom that begins at `start`.
fn atom(bytes: &[u8], start: usize) -> Result<usize, TextFault> {
    let mut state = START;
    let mut number = 0u128;
    let mut behind = start;
    for (at, byte) in bytes.iter().enumerate().skip(start) {
        let Some(next) = moved(state, *byte) else {
            let is_closed = state == BEHIND_BARS || state == BEHIND_QUOTES;
            if !is_closed && (START == state || COLON <= state || !SEPARATORS.contains(byte)) {
                return Err(TextFault::BadByte(at));
            }
            break;
        };
        state = next;
        number = number
            .saturating_mul(10)
            .saturating_add(u128::from(byte.wrapping_sub(b'0')));
        behind = at.saturating_add(1);
    }
    let length = behind.saturating_sub(start);
    let is_above = match state {
        WHOLE => number >= 1 << 127,
        HEXADECIMAL => length > 18,
        BINARY => length > 66,
        _ => false,
    };
    if COLON <= state {
        Err(TextFault::Unclosed(start))
    } else if is_above {
        Err(TextFault::LiteralRange(start))
    } else {
        Ok(behind)
    }
}

/// The offset behind the next item from `from` on. The places of all its parts are appended in the order in which they
/// begin.
pub fn read(
    rt: &(impl Abort + AllocGlobal),
    bytes: &[u8],
    from: usize,
    places: &mut Vec<usize>,
) -> Result<Option<usize>, TextFault> {
    let mut open = Vec::new(rt.alloc());
    read_on(rt, bytes, from, &mut open, places)
}

/// The same, with the lists that are open, of which there are none at first.
fn read_on(
    rt: &impl Abort,
    bytes: &[u8],
    from: usize,
    open: &mut Vec<usize>,
    places: &mut Vec<usize>,
) -> Result<Option<usize>, TextFault> {
    let mut in_comment = false;
    let mut behind = from;
    for (at, byte) in bytes.iter().enumerate().skip(from) {
        if at < behind {
            continue;
        }
        if in_comment {
            in_comment = *byte != b'\n' && *byte != b'\r';
            continue;
        }
        behind = at.saturating_add(1);
        match *byte {
            b' ' | b'\t' | b'\n' | b'\r' => continue,
            b';' => {
                in_comment = true;
                continue;
            }
            b'(' if open.len() == 1200 => return Err(TextFault::TooDeep(at)),
            b'(' => {
                open.push(at).expect(rt, "memory");
                places.push(at).expect(rt, "memory");
            }
            b')' => {
                if open.pop().is_none() {
                    return Err(TextFault::Stray(at));
                }
            }
            _ => {
                places.push(at).expect(rt, "memory");
                behind = atom(bytes, at)?;
            }
        }
        if open.is_empty() {
            return Ok(Some(behind));
        }
    }
    match open.last() {
        Some(start) => Err(TextFault::Unclosed(*start)),
        None => Ok(None),
    }
}

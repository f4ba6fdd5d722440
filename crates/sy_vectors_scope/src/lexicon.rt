// The tables of the lexicon, and each text of a file read as a second reading does.
ghost use Rattle.std.specs.Prelude.{◌≤◌, length};

use crate::second;
use crate::tables::field;
use std::process::Abort;
use sy_io::Bytes;
use sy_text::{Sexp, TextEnd, TextFault, line_column, next_command, write_sexp};

/// A file with two commands' kinds of lists, atoms of many kinds, and a comment.
const FILE: &[u8] = b"(set-logic LIA)
(synth-fun f ((x Int) (y Int)) Int
  ((S Int) (C Bool))
  ((S Int (x y (ite C S S)))
   (C Bool ((<= x y)))))
(declare-var x Int)
(declare-var y Int)
(constraint (>= (f x y) x))
(constraint (>= (f x y) y))
(constraint (or (= (f x y) x) (= (f x y) y)))
(check-synth)
";

/// Appends the places of the item and of its parts, of which there are at most so many, in the order in which they
/// begin.
fn append_places(
    rt: &(impl Abort + AllocGlobal),
    item: &Sexp,
    limit: usize,
    places: &mut Vec<usize>,
) {
    let mut waiting = Vec::new(rt.alloc());
    waiting.push(item).expect(rt, "memory");
    for _ in 0..limit {
        match waiting.pop() {
            Some(Sexp::Atom(_, place)) => places.push(place.at).expect(rt, "memory"),
            Some(Sexp::List(items, place)) => {
                places.push(place.at).expect(rt, "memory");
                for i in (0..items.len()).rev() {
                    if let Some(part) = items.get(i) {
                        waiting.push(part).expect(rt, "memory");
                    }
                }
            }
            None => break,
        }
    }
}

/// The offset behind the next item from `at` on. The places of its parts are appended.
fn read(
    rt: &(impl Abort + AllocGlobal),
    bytes: &[u8],
    at: usize,
    places: &mut Vec<usize>,
) -> Result<Option<usize>, TextFault>
    requires { at ≤ length bytes.now }
{
    let found = next_command(rt.alloc(), bytes, at);
    let read = match &found {
        Ok(Some((item, behind))) => {
            append_places(rt, item, bytes.len(), places);
            Ok(Some(*behind))
        }
        Ok(None) => Ok(None),
        Err(TextEnd::Fault(fault)) => Err(*fault),
        Err(TextEnd::Want) => panic!(rt; "memory"),
    };
    drop(found);
    read
}

/// The fault of the bytes, read to the end.
fn fault_of(rt: &(impl Abort + AllocGlobal), bytes: &[u8]) -> Option<TextFault> {
    let mut places = Vec::new(rt.alloc());
    let mut at = 0;
    for _ in 0..=bytes.len() {
        if at > bytes.len() {
            break;
        }
        match read(rt, bytes, at, &mut places) {
            Ok(Some(behind)) => at = behind,
            Ok(None) => break,
            Err(fault) => return Some(fault),
        }
    }
    None
}

/// The fault of the bytes as tables tell it, or `none`.
fn told(rt: &(impl Abort + AllocGlobal), bytes: &[u8]) -> String {
    let told = match fault_of(rt, bytes) {
        Some(fault) => format!(in rt.alloc(); "{fault:?}"),
        None => String::from_str(rt.alloc(), "none"),
    };
    told.expect(rt, "memory")
}

/// The bytes that the letters stand for, each for the byte of its number.
fn bytes_of(rt: &(impl Abort + AllocGlobal), letters: &str) -> Vec<u8> {
    let mut bytes = Vec::new(rt.alloc());
    for letter in letters.chars() {
        let byte = (u32::from(letter) % 256) as u8;
        bytes.push(byte).expect(rt, "memory");
    }
    bytes
}

/// Faults, each with the letters in which it is found; `§` ends a row.
pub const FAULTS: &str = "\
Unclosed(0) (set-logic BV§\
Unclosed(18) (set-info :source |ab§\
Unclosed(3) (a (b§\
Unclosed(0) (a (b) §\
Unclosed(0) (a ;)§\
Unclosed(1) (\"ab§\
Unclosed(0) \"a\"\"§\
Unclosed(1) (#§\
Unclosed(0) #x§\
Unclosed(0) #b§\
Unclosed(0) :§\
Unclosed(0) 1.§\
Stray(1)  )§\
Stray(2) ;\n)§\
Stray(2) ;\r)§\
BadByte(0) 'a§\
BadByte(1) (\x00)§\
BadByte(0) \x0b§\
BadByte(0) \x7f§\
BadByte(0) \u{80}§\
BadByte(1) a\u{80}§\
BadByte(1) a'b§\
BadByte(1) a#b§\
BadByte(1) a:b§\
BadByte(1) :(§\
BadByte(1) ::a§\
BadByte(2) :a:b§\
BadByte(2) 12a§\
BadByte(2) (01)§\
BadByte(1) 00§\
BadByte(1) 01.5§\
BadByte(1) 0x1§\
BadByte(2) 1.x§\
BadByte(2) 1.;§\
BadByte(3) 1.2.3§\
BadByte(1) #o7§\
BadByte(1) #X1§\
BadByte(2) #xg§\
BadByte(3) #x0g§\
BadByte(2) #b2§\
BadByte(3) #b12§\
BadByte(2) |a\\b|§\
BadByte(2) |a\x7f|§\
BadByte(2) \"a\x01\"§\
LiteralRange(0) 170141183460469231731687303715884105728§\
LiteralRange(1) (170141183460469231731687303715884105728§\
BadByte(39) 170141183460469231731687303715884105728a§\
LiteralRange(0) #x12345678901234567§\
LiteralRange(1) (#x00000000000000000)§\
BadByte(19) #x12345678901234567g§\
LiteralRange(0) #b00000000000000000000000000000000000000000000000000000000000000000§\
BadByte(67) #b000000000000000000000000000000000000000000000000000000000000000002§\
Stray(6) (1 2) )§\
Stray(3) (a))";

/// Whether the row tells the fault of its letters.
pub fn has_fault(rt: &(impl Abort + AllocGlobal), row: &str) -> bool {
    let (fault, letters) = row.split_once(' ').unwrap_or((row, ""));
    let bytes = bytes_of(rt, letters);
    let told = told(rt, &bytes);
    told.as_str() == fault
}

/// Items as they are written, each with the letters from which it is read, behind `¶`; `§` ends a row.
pub const SPELLINGS: &str = "\
(a |b c| #x0f \"q\"\"r\" :k 1.50)¶(a |b c| #x0F \"q\"\"r\" :k 1.50)§\
a¶|a|§\
let¶|let|§\
|1|¶|1|§\
||¶||§\
|a\n\t\u{80}\u{ff}|¶|a\n\t\u{80}\u{ff}|§\
~!@$%^&*_-+=<>.?/09AZaz¶|~!@$%^&*_-+=<>.?/09AZaz|§\
-5¶-5§\
:1¶:1§\
0¶0§\
170141183460469231731687303715884105727¶170141183460469231731687303715884105727§\
170141183460469231731687303715884105728.0¶170141183460469231731687303715884105728.0§\
0.00¶0.00§\
#xabc¶#xAbC§\
#xffffffffffffffff¶#xffffffffffffffff§\
#x1¶#b0001§\
#b00011¶#b00011§\
#xfffffffffffffffe¶#b1111111111111111111111111111111111111111111111111111111111111110§\
\"\"¶\"\"§\
\"a\n|\\\"¶\"a\n|\\\"§\
()¶()§\
(a (b) \"c\" d e f 1 ())¶ ( a(b)\"c\"d|e|f;g\r1(\t) ;)\n )§\
a¶a\"b\"§\
#b1¶; (\r\n#b1)";

/// The first item of the bytes, as it is written.
fn spelled(rt: &(impl Abort + AllocGlobal), bytes: &[u8]) -> Bytes {
    let read = next_command(rt.alloc(), bytes, 0).expect(rt, "an item");
    let (item, _) = read.expect(rt, "an item");
    let written = write_sexp(rt.alloc(), &item).expect(rt, "memory");
    drop(item);
    written
}

/// Whether the row tells how the item of its letters is written.
pub fn is_spelled(rt: &(impl Abort + AllocGlobal), row: &str) -> bool {
    let (text, letters) = row.split_once('¶').unwrap_or((row, ""));
    let bytes = bytes_of(rt, letters);
    let wanted = bytes_of(rt, text);
    spelled(rt, &bytes).as_slice() == wanted.as_slice()
}

/// Whether both readings of the bytes give the same items, places and fault.
fn agree(rt: &(impl Abort + AllocGlobal), bytes: &[u8]) -> bool {
    let mut at = 0;
    for _ in 0..=bytes.len() {
        if at > bytes.len() {
            break;
        }
        let mut places = Vec::new(rt.alloc());
        let mut others = Vec::new(rt.alloc());
        let found = read(rt, bytes, at, &mut places);
        let is_same = found == second::read(rt, bytes, at, &mut others);
        if !is_same || found.is_ok() && places != others {
            return false;
        }
        match found {
            Ok(Some(behind)) => at = behind,
            _ => return true,
        }
    }
    false
}

/// The file with another byte at one offset.
fn changed(rt: &(impl Abort + AllocGlobal), at: usize, byte: u8) -> Vec<u8> {
    let mut bytes = Vec::new(rt.alloc());
    bytes.extend_from_slice(FILE).expect(rt, "memory");
    if let Some(place) = bytes.get_mut(at) {
        *place = byte;
    }
    bytes
}

/// Whether a cut of the file is read alike, and ends it or leaves something open.
fn is_cut(rt: &(impl Abort + AllocGlobal), cut: &[u8]) -> bool {
    let fault = fault_of(rt, cut);
    matches!(fault, None | Some(TextFault::Unclosed(_))) && agree(rt, cut)
}

/// Asserts that the file with any byte at the offset is read alike.
fn assert_changes(rt: &(impl Abort + AllocGlobal), at: usize) {
    for byte in 0..=255 {
        let bytes = changed(rt, at, byte);
        assert!(rt; agree(rt, &bytes), "{at} {byte}");
    }
}

#[test]
fn each_cut_and_each_changed_byte_is_read_alike(rt: HostRuntime) {
    for at in 0..FILE.len() {
        assert!(rt; is_cut(&rt, &FILE[..at]), "{at}");
        assert_changes(&rt, at);
    }
}

/// A byte, how often it stands, and the fault of this.
pub const LARGEST: &str = "\
(|1200|Unclosed(1199)
(|1201|TooDeep(1200)
 |4194304|none
a|4194304|none";

/// Whether so many of the byte have this fault.
fn have_fault(rt: &(impl Abort + AllocGlobal), byte: u8, count: usize, fault: &str) -> bool {
    let mut bytes = Vec::new(rt.alloc());
    bytes.resize(count, byte).expect(rt, "memory");
    let told = told(rt, &bytes);
    told.as_str() == fault
}

/// Whether the row's bytes have their fault.
pub fn is_largest(rt: &(impl Abort + AllocGlobal), row: &str) -> bool {
    let byte = row.as_bytes().first().expect(rt, "a byte");
    let count: usize = field(row, 1).parse().unwrap_or(0);
    have_fault(rt, *byte, count, field(row, 2))
}

/// A text, an offset, and its line and column; `§` ends a row.
pub const PLACES: &str = "\
ab\nc|0|1|1§\
ab\nc|2|1|3§\
ab\nc|3|2|1§\
ab\nc|4|2|2§\
ab\r\n\n|5|3|1";

/// Whether the offset of the text has this line and column.
fn is_at(text: &[u8], at: usize, line: usize, column: usize) -> bool {
    at <= text.len() && line_column(text, at) == (line, column)
}

/// Whether the row's offset has its line and column.
pub fn is_placed(row: &str) -> bool {
    let at: usize = field(row, 1).parse().unwrap_or(0);
    let line: usize = field(row, 2).parse().unwrap_or(0);
    let column: usize = field(row, 3).parse().unwrap_or(0);
    is_at(field(row, 0).as_bytes(), at, line, column)
}

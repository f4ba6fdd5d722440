// The tables of texts: `§` ends a row.
use std::alloc::Global;
use std::process::Abort;
use sy_proof::{read_log, read_tree, write_log, write_tree};
use sy_text::next_command;
use sy_text_items::Sexp;

/// Logs, each with byte 10 behind it.
pub const LOGS: &str = "\
(log)
§(log (0))
§(log (0 0 1))
§(log (0 0 1) (2 7 1 5 3) (4294967295 4294967295 4294967295))
";

/// Trees, each with byte 10 behind it.
pub const TREES: &str = "\
(tree (shown))
§(tree (farkas))
§(tree (farkas 0 1 (- 1) (/ 1 2) (/ (- 7) 3)))
§(tree (farkas 170141183460469231731687303715884105727 (/ (- 170141183460469231731687303715884105727) 2)))
§(tree (farkas (- 170141183460469231731687303715884105727) (/ 1 170141183460469231731687303715884105727)))
§(tree (split (holds 4294967295)) (shown) (farkas 1 1))
§(tree (split (atleast (- 5))) (shown) (shown))
§(tree (split (atleast 3 (0 2) (1 (- 2)) (7 min))) (farkas 1) (shown))
§(tree (branch 2 min) (shown) (branch 0 (- 1)) (shown) (shown))
§(tree (cut 2 (/ 1 2) 1) (farkas 0 0 1))
§(tree (split (holds 0)) (cut 3 1) (branch 1 4) (shown) (shown) (split (atleast 0 (0 1))) (shown) (cut 1) (farkas 2))
";

/// Texts that are no log.
pub const NO_LOGS: &str = "\
log§\
()§\
(tree (shown))§\
(log 0)§\
(log ())§\
(log (0 1))§\
(log (0 0 1 2))§\
(log (0 0 4294967296))§\
(log (4294967296))§\
(log (x))§\
(log ((- 1)))§\
(log (0 0 1) 3)§\
((log (0 0 1)))";

/// Texts that are no tree.
pub const NO_TREES: &str = "\
tree§\
()§\
(tree)§\
(log (0 0 1))§\
(tree shown)§\
(tree (shown) (shown))§\
(tree (shown 1))§\
(tree (unfinished))§\
(tree (other))§\
(tree (split (holds 0)))§\
(tree (split (holds 0)) (shown))§\
(tree (split (holds 0)) (shown) (shown) (shown))§\
(tree (split) (shown) (shown))§\
(tree (split (holds)) (shown) (shown))§\
(tree (split (holds 4294967296)) (shown) (shown))§\
(tree (split (holds 0 1)) (shown) (shown))§\
(tree (split (atleast)) (shown) (shown))§\
(tree (split (atleast 1 (0))) (shown) (shown))§\
(tree (split (atleast 1 (0 1 2))) (shown) (shown))§\
(tree (split (atleast (/ 1 2))) (shown) (shown))§\
(tree (branch 0) (shown) (shown))§\
(tree (branch 0 1 2) (shown) (shown))§\
(tree (branch 0 (/ 1 2)) (shown) (shown))§\
(tree (cut) (farkas))§\
(tree (cut (/ 1 2)) (farkas))§\
(tree (farkas (/ 2 4)))§\
(tree (farkas (/ 0 3)))§\
(tree (farkas (/ 3 1)))§\
(tree (farkas (/ 1 0)))§\
(tree (farkas (/ 1 (- 2))))§\
(tree (farkas min))§\
(tree (farkas (/ min 3)))§\
(tree (farkas (- 0)))§\
(tree (farkas (- min)))§\
(tree (farkas x))";

/// The item that the text begins with.
pub fn item(rt: &impl Abort, alloc: Global, text: &[u8]) -> Sexp {
    match next_command(alloc, text, 0) {
        Ok(Some((item, _))) => item,
        _ => panic!(rt; "no item"),
    }
}

/// Whether the text is that of a log, written as it is read.
pub fn is_log(rt: &impl Abort, alloc: Global, text: &str) -> bool {
    let item = item(rt, alloc, text.as_bytes());
    match read_log(alloc, &item).expect(rt, text) {
        Some(log) => {
            let written = write_log(alloc, &log).expect(rt, text);
            written.as_slice() == text.as_bytes()
        }
        None => false,
    }
}

/// Whether the text is that of a tree, written as it is read.
pub fn is_tree(rt: &impl Abort, alloc: Global, text: &str) -> bool {
    let item = item(rt, alloc, text.as_bytes());
    match read_tree(alloc, &item).expect(rt, text) {
        Some(tree) => {
            let written = write_tree(alloc, &tree).expect(rt, text);
            written.as_slice() == text.as_bytes()
        }
        None => false,
    }
}

/// Whether the text is that of no log.
pub fn is_no_log(rt: &impl Abort, alloc: Global, text: &str) -> bool {
    let item = item(rt, alloc, text.as_bytes());
    read_log(alloc, &item).expect(rt, text).is_none()
}

/// Whether the text is that of no tree.
pub fn is_no_tree(rt: &impl Abort, alloc: Global, text: &str) -> bool {
    let item = item(rt, alloc, text.as_bytes());
    read_tree(alloc, &item).expect(rt, text).is_none()
}

// Files that are made from numbers.
use std::alloc::Global;
use std::process::Abort;
use sygus_drills::drill_file;

/// Numbers and how their files begin, behind `^`; `~` stands between rows.
pub const FILES: &str = "0^(set-logic BV)
(synth-fun f ((x (_ BitVec 8))) (_ BitVec 8)
  ((S (_ BitVec 8)) (C Bool))
  ((S (_ BitVec 8) (x (bvnot x) (bvadd x #x01) (ite C S S)))
   (C Bool ((bvult x #x00)))))
(constraint (= (f #x14) #x15))~128^(set-logic BV)
(synth-fun f ((x (_ BitVec 8))) (_ BitVec 8)
  ((S (_ BitVec 8)) (C Bool))
  ((S (_ BitVec 8) (x (bvnot x) (bvadd x #x01) (ite C S S)))
   (C Bool ((bvult x #x80)))))
(constraint (= (f #x3c) #xc3))";

/// Whether the number's file begins as the row says.
pub fn is_begun(rt: &impl Abort, alloc: Global, row: &str) -> bool {
    let (number, begin) = row.split_once('^').unwrap_or(("", row));
    let number = number.parse().unwrap_or(1);
    let file = drill_file(alloc, number).expect(rt, "a file");
    file.as_slice().starts_with(begin.as_bytes())
}

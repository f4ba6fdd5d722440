// The line of a number.
ghost use Rattle.std.specs.Prelude.{◌≡◌, ◌++◌, IfOk, OnOk};
ghost use Rattle.sygus_drills.specs.Lines as lines;

use std::alloc::Global;
use sy_io::Bytes;
use sy_query_limits::FailName;
use sy_reply::name_text;
use sy_seq::Want;
use sy_text::write_numeral;

/// How the problem of a number ended.
#[derive(Clone, Copy)]
pub enum DrillEnd {
    /// By a definition, which meets so many of the 1,000 examples.
    Met(u32),
    /// No definition solves the problem.
    Infeasible,
    /// By a fail of this name.
    Failed(FailName),
}

/// Appends how many examples are met.
fn put_met(line: &mut Bytes, count: u32) -> Result<(), Want>
    ensures { OnOk result (line.new ≡ line.old ++ lines.met_text count) }
{
    line.append(b"1000 examples, ")?;
    write_numeral(line, count as u128)?;
    line.append(b" met")
}

/// Appends what a line says of an end.
#[tactic(auto, unfolding(crate::specs::Lines::end_text))]
fn put_end(line: &mut Bytes, end: DrillEnd) -> Result<(), Want>
    ensures { OnOk result (line.new ≡ line.old ++ lines.end_text end) }
{
    match end {
        DrillEnd::Met(count) => put_met(line, count),
        DrillEnd::Infeasible => line.append(b"infeasible"),
        DrillEnd::Failed(name) => {
            line.append(b"fail ")?;
            line.append(name_text(name).as_bytes())
        }
    }
}

/// The line `drill N: END` of a number, where END is `1000 examples, M met`, `infeasible` or `fail NAME`. It ends with
/// byte 10.
pub fn drill_line(alloc: Global, number: u32, end: DrillEnd) -> Result<Bytes, Want>
    ensures { IfOk result (λ line. line ≡ lines.drill_line number end) }
{
    let mut line = Bytes::new(alloc);
    line.append(b"drill ")?;
    write_numeral(&mut line, number as u128)?;
    line.append(b": ")?;
    put_end(&mut line, end)?;
    line.append(b"\n")?;
    Ok(line)
}

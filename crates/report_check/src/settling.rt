//! Judges gets by the machine.
ghost use Rattle.std.specs.Prelude.{◌≡◌, ◌≤◌, ◌↔◌, IsTrue, length};
ghost use Rattle.mica_trace.specs.declared.line.TraceLine.{TraceLine};
ghost use Rattle.mica_trace.specs.declared.report.Line.{Line};
ghost use Rattle.mica_trace.specs.LawfulReport.{IsGetAt};
ghost use Rattle.report_check.specs.Earlier.{earlier};
ghost use Rattle.partition_model.specs.History.{State, stamp_in};
ghost use Rattle.report_check.specs.Machines.{IsAt};
ghost use Rattle.report_check.specs.Settling.{AnswersNow, AreGets, StampsRise, HasJudged, IsAhead};

use crate::asked::Asked;
use crate::machine::Machine;
use mica_trace::{Line, TraceLine};
use partition_model::ItemBuf;

/// How many gets are settled, and the place of the first that was missed.
#[derive(Clone, Copy)]
pub struct Settling {
    pub next: usize,
    pub missed: Option<usize>,
}

/// The earlier of a place, if there is one, and another.
pub fn earlier(found: Option<usize>, place: usize) -> Option<usize>
    ensures { result ≡ earlier found place }
{
    match found {
        Some(other) if other < place => found,
        _ => Some(place),
    }
}

// Whether what is printed for the get at the place is what the machine answers now.
fn answers_at(
    machine: &Machine,
    trace: &[TraceLine],
    report: &[Line],
    place: usize,
    out: &mut ItemBuf,
) -> bool
    requires get { (line : TraceLine) × (printed : Line) × IsGetAt trace.now report.now place line printed }
    requires at { (state : State) × IsAt state machine.now }
    ensures { (state : State) → IsAt state machine.now → IsTrue result ↔ AnswersNow state trace.now report.now place }
{
    let line = &trace[place];
    machine.answers(line.key.bytes(), &report[place], out)
}

/// Judges the gets up to the machine's stamp. Those before them are settled.
pub fn judge(
    machine: &Machine,
    trace: &[TraceLine],
    report: &[Line],
    asked: &[Asked],
    settling: Settling,
    out: &mut ItemBuf,
) -> Settling
    requires high { settling.next ≤ length asked.now }
    requires gets { AreGets trace.now report.now asked.now }
    requires rising { StampsRise asked.now }
    requires at { (state : State) × IsAt state machine.now }
    ensures judged { (state : State) → IsAt state machine.now → HasJudged state trace.now report.now asked.now settling result }
    ensures ahead { (state : State) → IsAt state machine.now → IsAhead (stamp_in state) asked.now result.next }
{
    let stamp = machine.stamp();
    let mut next = settling.next;
    let mut missed = settling.missed;
    while next < asked.len() && asked[next].stamp <= stamp {
        let get = asked[next];
        if !answers_at(machine, trace, report, get.place, out) {
            missed = earlier(missed, get.place);
        }
        next += 1;
    }
    Settling { next, missed }
}

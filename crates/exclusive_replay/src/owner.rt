//! An owner, which answers the lines that come through its queue.
ghost use Rattle.std.specs.Prelude.{◌<◌, length, IfOk};
ghost use Rattle.any_partition.specs.PlainPartition.{owner_of};
ghost use Rattle.exclusive_replay.specs.Workers.{AnswersLine, IsReadyOwner, OwnerRan};

use crate::queue::{LineReceiver, Sent};
use any_partition::PlainPartition;
use line_replies::reply_to;
use mica_trace::{Line, Trace};
use outside::{Gate, NoMemory};
use partition_model::ItemBuf;
use std::alloc::Global;
use std::sync::Wait;

/// A partition with its queue, and what is printed for the lines that it has answered: None once memory ran out.
#[derive(Drop)]
pub(crate) struct Owner {
    pub part: PlainPartition,
    pub queue: LineReceiver,
    pub worker: u32,
    pub value: ItemBuf,
    pub printed: Option<Vec<Line>>,
}

// Answers one line more, unless there was no memory before.
fn answer_line(
    alloc: Global,
    part: &mut PlainPartition,
    value: &mut ItemBuf,
    trace: &Trace,
    number: u32,
    mut printed: Vec<Line>,
) -> Result<Vec<Line>, NoMemory>
    requires { number < length trace.now }
    ensures { IfOk result (λ more. AnswersLine (owner_of part.old) (owner_of part.new) trace.now number printed.items more.items) }
{
    let lines = trace.lines();
    let line = &lines[number as usize];
    let reply = reply_to(alloc, part, line, value)?;
    printed.push(reply)?;
    Ok(printed)
}

impl Owner {
    /// Takes the queue to its end, and answers each line before the next one, but no more once memory ran out. It passes
    /// the gate before each answer, and once more at the end.
    pub(crate) fn run<W: Wait, G: Gate>(&mut self, rt: &W, alloc: Global, trace: &Trace, gate: &G)
        requires { IsReadyOwner trace.now self.old }
        ensures { OwnerRan trace.now self.old self.new }
    {
        let mut call = 0u32;
        for _ in rt.forever() {
            match self.queue.recv(rt) {
                Sent::Line(number) => {
                    if let Some(printed) = self.printed.take() {
                        gate.turn(self.worker, call);
                        call = call.saturating_add(1);
                        self.printed = answer_line(
                            alloc,
                            &mut self.part,
                            &mut self.value,
                            trace,
                            number,
                            printed,
                        )
                        .ok();
                    }
                }
                Sent::End => {
                    if self.printed.is_some() {
                        gate.turn(self.worker, call);
                    }
                    return;
                }
            }
        }
        unreachable!()
    }
}

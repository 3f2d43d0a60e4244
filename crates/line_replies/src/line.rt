//! One line of a trace, answered by its partition.
ghost use Rattle.std.specs.Prelude.{◌≡◌, IfOk, OnErr};
ghost use Rattle.mica_words.specs.Item.{KeyFits};
ghost use Rattle.partition_model.specs.Write.{HasValueOf, write_of};
ghost use Rattle.mica_trace.specs.TraceGrammar.{IsTraceLine};
ghost use Rattle.line_replies.specs.Replied.{IsWriteReply, IsReplied, IsAnswered};

use mica_trace::{Line, TraceLine};
use outside::{Bytes, NoMemory};
use partition_model::{Answer, ItemBuf, Op};
use partition_words::{Partition, write_to};
use std::alloc::Global;

// The report line of a get.
fn answer<P: Partition>(
    alloc: Global,
    part: &mut P,
    key: &[u8],
    value: &mut ItemBuf,
) -> Result<Line, NoMemory>
    requires { KeyFits key.now }
    ensures answer { IfOk result (IsAnswered (P.owner part.old) key.now) }
    ensures same { P.owner part.new ≡ P.owner part.old }
    ensures home { P.home part.new ≡ P.home part.old }
{
    match part.get(key, value) {
        Answer::Hit => {
            let value = Bytes::copy(alloc, value.value())?;
            Ok(Line::Hit {
                stamp: part.stamp(),
                value,
            })
        }
        Answer::Miss => Ok(Line::Miss {
            stamp: part.stamp(),
        }),
    }
}

// Does a write, and gives its report line.
fn write<P: Partition>(part: &mut P, op: Op, key: &[u8], value: &[u8]) -> Line
    requires key { KeyFits key.now }
    requires value { HasValueOf op value.now }
    ensures reply { IsWriteReply (P.owner part.old) (P.owner part.new) (write_of op key.now value.now) result }
    ensures home { P.home part.new ≡ P.home part.old }
{
    let outcome = write_to(part, op, key, value);
    Line::Wrote {
        op,
        outcome,
        stamp: part.stamp(),
    }
}

/// Does what a line asks of its partition, and gives what is printed for it. The buffer is for a value that is found.
/// Where memory runs out, the partition is as it was.
pub fn reply_to<P: Partition>(
    alloc: Global,
    part: &mut P,
    line: &TraceLine,
    value: &mut ItemBuf,
) -> Result<Line, NoMemory>
    requires { IsTraceLine line.now }
    ensures ok { IfOk result (IsReplied (P.owner part.old) (P.owner part.new) line.now) }
    ensures err { OnErr result (P.owner part.new ≡ P.owner part.old) }
    ensures home { P.home part.new ≡ P.home part.old }
{
    let (key, given) = (line.key.bytes(), line.value.bytes());
    match line.op.write_op() {
        Some(op) => Ok(write(part, op, key, given)),
        None if line.is_sync() => Ok(Line::Sync),
        None => answer(alloc, part, key, value),
    }
}

//! One datagram of a caller's, answered by a front into datagrams in memory.
ghost use Rattle.std.specs.Prelude.{◌≡◌, ◌≤◌, List, IfOk, OnErr};
ghost use Rattle.datagram_answers.specs.Turn.{Turn};
ghost use Rattle.datagram_answers.specs.Answering.{DealsWith, DealsInPart};

use crate::deal::deal;
use batch_packets::Datagram;
use fronts::Front;
use outside::{Gate, NoMemory};
use partition_model::ItemBuf;
use std::alloc::Global;

/// The replies to one datagram, each request answered before the next one begins. The gate is passed before each, as by worker 0.
pub fn serve_batch<F: Front, G: Gate>(
    alloc: Global,
    front: &mut F,
    from: &[u8],
    gate: &G,
) -> Result<Vec<Datagram>, NoMemory>
    requires { 255 ≤ F.left front.old }

    ensures served { IfOk result (λ datagrams. (turns : List Turn) × DealsWith (F.options front.old) F.is_alone
        (F.sessions front.old) (F.left front.old)
        (record { datagram = from.now; turns = turns; replies = datagrams.items })
        (F.sessions front.new) (F.left front.new)) }
    ensures partly { OnErr result (DealsInPart (F.options front.old) F.is_alone
        (F.sessions front.old) (F.left front.old) from.now (F.sessions front.new) (F.left front.new)) }
    ensures options { F.options front.new ≡ F.options front.old }
    ensures number { F.number front.new ≡ F.number front.old }
    ensures stands { F.stands front.new ≡ F.stands front.old }
{
    let mut out = ItemBuf::new(alloc)?;
    let dealt = deal(alloc, front, from, gate, &mut out)?;
    Ok(dealt.replies)
}

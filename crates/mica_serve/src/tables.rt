//! The seats that a server keeps.
ghost use Rattle.std.specs.Prelude.{◌≡◌, ◌≤◌, ◌+◌, ◌++◌, ℕ, Some, map, length, slice_get};
ghost use Rattle.partition_words.specs.declared.state.Phase.TheVariants.{Idle};
ghost use Rattle.partition_table.specs.Tabled.{kept_seat_in};

use crate::worker::OwnerTask;
use any_partition::OnTable;
use partition_table::Tables;
use partition_words::Partition;

/// Keeps the seats of all owners, in order.
pub(crate) fn keep_all<P: OnTable + Partition>(owners: Vec<OwnerTask<P>>, tables: &mut Tables)
    requires same { (p : P) → P.state p ≡ P.owner p }
    requires room { length tables.old + length owners.items ≤ 16 }
    requires idle { (p : ℕ) (w : OwnerTask P) → slice_get owners.items p ≡ Some w → (P.owner w.part).phase ≡ Idle }
    ensures { tables.new ≡ tables.old ++ map (λ w. kept_seat_in (P.owner w.part)) owners.items }
{
    let mut left = owners.into_iter();
    while let Some(owner) = left.next() {
        tables.keep(owner.part.into_seat());
    }
}

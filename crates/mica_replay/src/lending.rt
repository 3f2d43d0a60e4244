//! Seats go from the owners to a reader before a round, and back after it.
ghost use Rattle.std.specs.Prelude.{◌≡◌, ◌<◌, [], map, length, OnOk};
ghost use Rattle.mica_replay.specs.Lending.{owner_part, lent_part, table_in, HaveMet};

use crate::worker::OwnerWork;
use outside::NoMemory;
use partition_words::LendPartition;

/// Each owner lends a seat, in order.
pub(crate) fn lend_all<P: LendPartition>(
    owners: &mut Vec<OwnerWork<P>>,
    seats: &mut Vec<P::Reader>,
) -> Result<(), NoMemory>
    requires { seats.old.items ≡ [] }
    ensures seats { OnOk result (map (λ s. P.Reader.reader s) seats.new.items ≡ map lent_part (map (λ w. owner_part P.owner P.home w) owners.old.items)) }
    ensures homes { OnOk result (map (λ s. P.Reader.home s) seats.new.items ≡ map table_in (map (λ w. owner_part P.owner P.home w) owners.old.items)) }
    ensures same { map (λ w. owner_part P.owner P.home w) owners.new.items ≡ map (λ w. owner_part P.owner P.home w) owners.old.items }
{
    for p in 0..owners.len() {
        let owner = &mut owners[p];
        let seat = owner.part.lend()?;
        seats.push(seat)?;
    }
    Ok(())
}

/// Each seat meets its owner, the last first.
pub(crate) fn meet_all<P: LendPartition>(owners: &mut Vec<OwnerWork<P>>, seats: &mut Vec<P::Reader>)
    requires { map (λ s. P.Reader.home s) seats.old.items ≡ map table_in (map (λ w. owner_part P.owner P.home w) owners.old.items) }
    ensures met { HaveMet (map (λ s. P.Reader.reader s) seats.old.items) (map (λ w. owner_part P.owner P.home w) owners.old.items)
        (map (λ w. owner_part P.owner P.home w) owners.new.items) }
    ensures empty { seats.new.items ≡ [] }
{
    while let Some(seat) = seats.pop() {
        let at = seats.len();
        let owner = &mut owners[at];
        owner.part.meet(seat);
    }
}

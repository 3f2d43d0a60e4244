//! What the fronts have in hand comes back to the owners.
ghost use Rattle.std.specs.Prelude.{◌≡◌, ◌+◌, ◌<◌, ℕ, map, length, vec_len, Some};
ghost use Rattle.mica_serve.specs.Hands.{MayMeet, MeetsPart, MayMeetHand, MeetsHand, MayMeetAll, HaveMetAll};
ghost use Rattle.mica_serve.specs.Tasks.{owner_end};

use crate::worker::OwnerTask;
use partition_table::{Note, ReaderSeat};
use partition_words::LendPartition;
use queue_front::FrontPart;

impl<P: LendPartition<Reader = ReaderSeat, Note = Note>> OwnerTask<P> {
    // Takes in the last front's part.
    fn meet(&mut self, part: FrontPart)
        requires some { 0 < vec_len self.old.acks }
        requires may { (f : ℕ) → length self.old.acks.items ≡ f + 1 → MayMeet f (owner_end P.owner P.home self.old) part }
        ensures { MeetsPart (owner_end P.owner P.home self.old) (owner_end P.owner P.home self.new) part }
    {
        let FrontPart {
            seat,
            jobs,
            acks,
            ..
        } = part;
        self.jobs.take_in(jobs);
        let Some(answers) = self.acks.pop() else {
            unreachable!()
        };
        let mut acks = acks;
        acks.take_in(answers);
        self.part.meet(seat);
    }
}

// Each owner takes in its part of the last front, the last owner first.
fn meet_front<P: LendPartition<Reader = ReaderSeat, Note = Note>>(
    owners: &mut Vec<OwnerTask<P>>,
    parts: Vec<FrontPart>,
)
    requires { MayMeetHand (map (λ task. owner_end P.owner P.home task) owners.old.items) parts.items }
    ensures { MeetsHand (map (λ task. owner_end P.owner P.home task) owners.old.items)
        (map (λ task. owner_end P.owner P.home task) owners.new.items) parts.items }
{
    let mut parts = parts;
    while let Some(part) = parts.pop() {
        let at = parts.len();
        let owner = &mut owners[at];
        owner.meet(part);
    }
}

/// The owners take in all that the fronts have in hand, the last front first.
pub(crate) fn meet_all<P: LendPartition<Reader = ReaderSeat, Note = Note>>(
    owners: &mut Vec<OwnerTask<P>>,
    hands: Vec<Vec<FrontPart>>,
)
    requires { MayMeetAll (map (λ task. owner_end P.owner P.home task) owners.old.items) (map (λ own. own.items) hands.items) }
    ensures { HaveMetAll (map (λ task. owner_end P.owner P.home task) owners.old.items)
        (map (λ task. owner_end P.owner P.home task) owners.new.items) (map (λ own. own.items) hands.items) }
{
    let mut hands = hands;
    while let Some(parts) = hands.pop() {
        meet_front(owners, parts);
    }
}

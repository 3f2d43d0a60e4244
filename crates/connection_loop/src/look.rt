//! What is made of the bytes of a connection that lie there.
ghost use Rattle.std.specs.Prelude.{◌≡◌, ◌<◌, ◌≤◌, ◌+◌, true, [], length, drop, max, IfOk, MatchResult, OnOk};
ghost use Rattle.mica_words.specs.Mark.{has_marks};
ghost use Rattle.memcached_text.specs.declared.limits.TheConstants.{MAX_REPLY_LEN, MAX_WAITING_LEN};
ghost use Rattle.memcached_requests.specs.declared.request.Next.TheVariants.{More};
ghost use Rattle.memcached_requests.specs.Next.{next_of};
ghost use Rattle.command_answers.specs.Exchange.{IsOpenAt};
ghost use Rattle.connection_loop.specs.Lying.{bytes_at};
ghost use Rattle.connection_loop.specs.Calls.{KeepsHand};
ghost use Rattle.connection_loop.specs.declared.answer.TheConstants.{LIMITS};
ghost use Rattle.connection_loop.specs.declared.desk.TheConstants.{MOST_UNSENT};
ghost use Rattle.connection_loop.specs.Clients.{IsClient};
ghost use Rattle.connection_loop.specs.Going.{GoesBySome};
ghost use Rattle.connection_loop.specs.Paid.{Advances, MayAnswer, SpeaksWhere, unanswered};
ghost use Rattle.connection_loop.specs.Turns.{most_answers};
ghost use Rattle.connection_loop.specs.Reached.{GoesOnTo, SpokeFrom, HaltsAs, leaves, position_at, position_in, position_of};

use crate::answer::{Halt, HowFar, answer_bytes};
use crate::client::Client;
use crate::hand::Hand;
use crate::kept::KeptBytes;
use crate::waiting::wider;
use command_answers::{Buffers, load_ahead};
use fronts::CountsWrites;
use memcached_text::waits_for_line;
use outside::NoMemory;
use std::alloc::Global;

/// No more bytes than these are read on in the room of the front, and copied there and back.
const SHORT_LEN: usize = 1_024;

/// Bytes of a connection, and where they lie: in the room of the front, or in their own buffer.
#[derive(Drop)]
pub(crate) enum Lying<'a> {
    Room(&'a [u8]),
    Own(KeptBytes),
}

impl<'a> Lying<'a> {
    /// The bytes.
    fn bytes(&self) -> &[u8]
        ensures { result.now ≡ bytes_at self.now }
    {
        match self {
            Lying::Room(bytes) => bytes,
            Lying::Own(kept) => kept.bytes(),
        }
    }

    /// Whether they are known to be no whole line, by what was looked through before and what came since. A frame is not known to wait: it tells its length in front.
    #[tactic(auto, using(crate::proofs::Looking::line_waits))]
    fn waits(&self) -> bool
        ensures { result ≡ true → next_of (bytes_at self.now) ≡ More }
    {
        match self {
            Lying::Room(_) => false,
            Lying::Own(kept) => kept.lacks_line() && waits_for_line(kept.bytes()),
        }
    }

    /// Those behind so many. Where all are left, their own buffer is.
    fn behind(self, alloc: Global, taken: usize, halt: Halt) -> Result<KeptBytes, NoMemory>
        requires { taken ≤ length (bytes_at self) }
        ensures { IfOk result (λ kept. kept ≡ drop taken (bytes_at self.entry)) }
    {
        match self {
            Lying::Room(bytes) => keep_rest(alloc, &bytes[taken..], halt),
            Lying::Own(kept) if taken == 0 => Ok(kept),
            Lying::Own(kept) => keep_rest(alloc, &kept.bytes()[taken..], halt),
        }
    }
}

/// Keeps a copy of what is left. Where that is the beginning of a command, and no short one, there is room for more.
fn keep_rest(alloc: Global, bytes: &[u8], halt: Halt) -> Result<KeptBytes, NoMemory>
    ensures { IfOk result (λ kept. kept ≡ bytes.now) }
{
    let whole = match halt {
        Halt::Needs if bytes.len() > SHORT_LEN => wider(bytes.len()),
        _ => bytes.len(),
    };
    KeptBytes::copy_of(alloc, bytes, whole)
}

impl Client {
    /// Keeps what is left of the bytes, which were answered so far.
    fn keep(&mut self, alloc: Global, lying: Lying, far: HowFar) -> Result<(), NoMemory>
        requires within { far.taken ≤ length (bytes_at lying) }
        requires short { length (drop far.taken (bytes_at lying)) ≤ MAX_WAITING_LEN }
        requires open { IsOpenAt (next_of (drop far.taken (bytes_at lying))) far.done }
        requires dropped { 0 < self.old.dropping → drop far.taken (bytes_at lying) ≡ [] }
        requires paid { unanswered (position_at (drop far.taken (bytes_at lying)) far.done) ≤ self.old.asks }
        ensures client { IfOk result (λ _. IsClient self.new) }
        ensures kept { OnOk result ((self.new.kept ≡ drop far.taken (bytes_at lying.entry)) × (self.new.done ≡ far.done)) }
        ensures dropping { self.new.dropping ≡ self.old.dropping }
        ensures leaving { self.new.leaving ≡ self.old.leaving }
        ensures unsent { self.new.unsent ≡ self.old.unsent }
        ensures asks { self.new.asks ≡ self.old.asks }
    {
        self.kept = lying.behind(alloc, far.taken, far.halt)?;
        self.done = far.done;
        Ok(())
    }
}

/// Answers what the bytes spell, unless they are known to wait.
fn answer_lying<F: CountsWrites>(
    hand: &mut Hand<F>,
    buffers: &mut Buffers,
    lying: &Lying,
    done: usize,
    out: &mut Vec<u8>,
) -> Result<HowFar, NoMemory>
    requires open { IsOpenAt (next_of (bytes_at lying.now)) done }
    requires partitions { hand.old.numbering.partitions ≡ (F.options hand.old.front).partitions }
    requires marks { has_marks (F.options hand.old.front).hashing ≡ true }
    ensures within { IfOk result (λ a. a.taken ≤ length (bytes_at lying.now)) }
    ensures open { IfOk result (λ a. IsOpenAt (next_of (drop a.taken (bytes_at lying.now))) a.done) }
    ensures waits { IfOk result (λ a. a.halt ≡ Halt.Needs → next_of (drop a.taken (bytes_at lying.now)) ≡ More) }
    ensures advances { IfOk result (λ a. Advances (MayAnswer hand.old.numbering.partitions (F.left hand.old.front) × (length out.old.items < LIMITS.bytes))
        ((a.halt ≡ Halt.Needs) × (next_of (bytes_at lying.now) ≡ More)) (position_at (bytes_at lying.now) done) (position_in (bytes_at lying.now) a)) }
    ensures short { length out.new.items ≤ max (length out.old.items) LIMITS.bytes + MAX_REPLY_LEN }
    ensures talk { GoesBySome (F.options hand.old.front) F.is_alone (F.sessions hand.old.front) (F.left hand.old.front) hand.old.second (F.sessions hand.new.front) (F.left hand.new.front) hand.new.second
        (λ answers. (length answers ≤ most_answers (F.options hand.old.front)) × MatchResult result (λ a. GoesOnTo (F.options hand.old.front) hand.old.numbering.base (position_at (bytes_at lying.now) done) answers out.old.items out.new.items
        (HaltsAs (F.options hand.old.front) hand.old.numbering.base (length (bytes_at lying.now)) a.halt (position_in (bytes_at lying.now) a))
        × SpeaksWhere (MayAnswer hand.old.numbering.partitions (F.left hand.old.front) × (length out.old.items < LIMITS.bytes)) a.halt answers out.old.items out.new.items)
        (λ _. SpokeFrom (F.options hand.old.front) hand.old.numbering.base (length (bytes_at lying.now)) (position_at (bytes_at lying.now) done) answers)) }
    ensures second { hand.new.second ≡ hand.old.second }
    ensures same { KeepsHand F.options F.number F.stands hand.old hand.new }
{
    if lying.waits() {
        return Ok(HowFar::at(0, done, Halt::Needs));
    }
    let bytes = lying.bytes();
    load_ahead(&hand.front, bytes);
    answer_bytes(hand, buffers, bytes, done, out)
}

/// Answers what the bytes spell, where so many answers were given to their first command, and keeps what is left of them. The replies are no more than may be
/// kept.
pub(crate) fn look_at<F: CountsWrites>(
    hand: &mut Hand<F>,
    client: &mut Client,
    lying: Lying,
    done: usize,
    buffers: &mut Buffers,
    replies: &mut Vec<u8>,
) -> Result<Halt, NoMemory>
    requires short { length (bytes_at lying) ≤ MAX_WAITING_LEN }
    requires open { IsOpenAt (next_of (bytes_at lying)) done }
    requires paid { unanswered (position_at (bytes_at lying) done) ≤ client.old.asks }
    requires partitions { hand.old.numbering.partitions ≡ (F.options hand.old.front).partitions }
    requires marks { has_marks (F.options hand.old.front).hashing ≡ true }
    ensures client { IfOk result (λ _. IsClient client.new) }
    ensures leaving { IfOk result (λ halt. client.new.leaving ≡ leaves halt) }
    ensures few { IfOk result (λ _. length replies.new.items ≤ MOST_UNSENT) }
    ensures unsent { client.new.unsent ≡ client.old.unsent }
    ensures asks { client.new.asks ≡ client.old.asks }
    ensures waits { IfOk result (λ halt. halt ≡ Halt.Needs → next_of client.new.kept ≡ More) }
    ensures advances { IfOk result (λ halt. Advances (MayAnswer hand.old.numbering.partitions (F.left hand.old.front)) ((halt ≡ Halt.Needs) × (next_of (bytes_at lying.entry) ≡ More))
        (position_at (bytes_at lying.entry) done) (position_of client.new)) }
    ensures talk { GoesBySome (F.options hand.old.front) F.is_alone (F.sessions hand.old.front) (F.left hand.old.front) hand.old.second (F.sessions hand.new.front) (F.left hand.new.front) hand.new.second
        (λ answers. (length answers ≤ most_answers (F.options hand.old.front)) × MatchResult result (λ halt. GoesOnTo (F.options hand.old.front) hand.old.numbering.base (position_at (bytes_at lying.entry) done) answers [] replies.new.items
        (HaltsAs (F.options hand.old.front) hand.old.numbering.base (length (bytes_at lying.entry)) halt (position_of client.new))
        × SpeaksWhere (MayAnswer hand.old.numbering.partitions (F.left hand.old.front)) halt answers [] replies.new.items)
        (λ _. SpokeFrom (F.options hand.old.front) hand.old.numbering.base (length (bytes_at lying.entry)) (position_at (bytes_at lying.entry) done) answers)) }
    ensures second { hand.new.second ≡ hand.old.second }
    ensures same { KeepsHand F.options F.number F.stands hand.old hand.new }
{
    replies.clear();
    let answered = answer_lying(hand, buffers, &lying, done, replies)?;
    client.dropping = answered.dropping;
    client.leaving = answered.halt == Halt::Leaves;
    client.keep(hand.alloc, lying, answered)?;
    Ok(answered.halt)
}

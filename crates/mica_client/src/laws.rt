//! What the datagrams of an exchange say: what was sent, that each ticket has one reply, and that they decide the answer.
ghost use Rattle.std.specs.Prelude.{◌≡◌, ◌≢◌, ◌++◌, ℕ, map, List, Result, Ok, Err};
ghost use Rattle.outside.specs.Traffic.{Datagram};
ghost use Rattle.mica_trace.specs.declared.line.TraceLine.{TraceLine};
ghost use Rattle.mica_trace.specs.declared.report.Line.{Line};
ghost use Rattle.batch_packets.specs.declared.replies.Reply.{Reply};
ghost use Rattle.server_words.specs.declared.ask_options.AskOptions.{AskOptions};
ghost use Rattle.mica_client.specs.declared.fault.AskFault.{AskFault};
ghost use Rattle.mica_client.specs.declared.fault.AskFault.TheVariants.{NoMemory};
ghost use Rattle.mica_client.specs.Talk.{Passed, sent_in};
ghost use Rattle.mica_client.specs.Exchange.{Standing, start, Runs, IsWhole, MeansForAsk, sending};
ghost use Rattle.mica_client.specs.Replied.{RepliesIn, IsRepliedOnce, broken_off};

use batch_packets::one_reading;

/// The datagrams that an exchange sent, and then those of the batches that are left, are those of the batches that were left before.
/// So at its end each batch was sent once, in order, and before it a beginning of them, whatever the answer.
pub fn sent_in_order()
    ensures so_far { (before after : Standing) (passed : List Passed) → Runs before passed after
        → sent_in passed ++ map sending after.left ≡ map sending before.left }
    ensures begins { (result : Result (List Line) AskFault) (before : Standing) (passed : List Passed) (left : List Datagram)
        → MeansForAsk result before passed left → (later : List (ℕ × Datagram)) × (sent_in passed ++ later ≡ map sending before.left) }
    ensures whole { (before after : Standing) (passed : List Passed) → Runs before passed after → IsWhole after
        → sent_in passed ≡ map sending before.left }
{}

/// Where the answer is a report, each datagram that was received is one of replies, each line that asks for something has exactly one
/// of these replies, by its ticket, and the line of the report is what that reply means.
pub fn answered_once()
    ensures { (options : AskOptions) (trace : List TraceLine) (report : List Line) (passed : List Passed) (left : List Datagram)
        → MeansForAsk (Ok report) (start options trace) passed left
        → (replies : List Reply) × RepliesIn passed replies × IsRepliedOnce trace report replies }
{}

/// Datagrams that passed have one answer, but for out of memory, and for whether the link failed or ended where they break off.
pub fn one_cause()
    ensures { (a b : Result (List Line) AskFault) (before : Standing) (passed : List Passed) (left other : List Datagram)
        → a ≢ Err NoMemory → b ≢ Err NoMemory → MeansForAsk a before passed left → MeansForAsk b before passed other
        → broken_off a ≡ broken_off b }
{
    one_reading();
}

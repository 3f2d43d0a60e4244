//! Bytes have one reading.
ghost use Rattle.std.specs.Prelude.{◌≡◌, ℕ, List};
ghost use Rattle.batch_packets.specs.declared.batch.Batch.{Batch};
ghost use Rattle.batch_packets.specs.declared.replies.Replies.{Replies};
ghost use Rattle.batch_packets.specs.BatchGrammar.{SpellsBatch};
ghost use Rattle.batch_packets.specs.ReplyGrammar.{SpellsReplies};

/// Bytes are the text of at most one batch, and of at most one list of replies.
pub fn one_reading()
    ensures batch { (bytes : List ℕ) (a b : Batch) → SpellsBatch bytes a → SpellsBatch bytes b
        → a ≡ b }
    ensures replies { (bytes : List ℕ) (a b : Replies) → SpellsReplies bytes a
        → SpellsReplies bytes b → a ≡ b }
{}

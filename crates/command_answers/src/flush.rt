//! A flush of all partitions.
ghost use Rattle.std.specs.Prelude.{◌≡◌, ◌<◌, ◌≤◌, ◌+◌, ◌++◌, ◌∷◌, [], ℕ, true, List, length};
ghost use Rattle.std.specs.List.{list_all};
ghost use Rattle.mica_words.specs.Mark.{has_marks};
ghost use Rattle.fronts.specs.Answered.{Answered, accepts, count_of_writes};
ghost use Rattle.fronts.specs.Session.{Answers, AnswersInOrder};
ghost use Rattle.command_answers.specs.FlushAnswers.{FlushesOne, FlushesFrom, flush_at};

use fronts::{Changes, Flush};
use memcached_text::Due;
use partition_model::ItemBuf;

/// The flush that is asked for at this second.
pub fn ask_flush(second: u64, due: Due) -> Flush
    ensures { result ≡ flush_at second due }
{
    match due {
        Due::Now => Flush { due: 0, asked: 0 },
        Due::After(seconds) => Flush {
            due: second.saturating_add(u64::from(seconds)),
            asked: second,
        },
        Due::At(due) => Flush {
            due: u64::from(due),
            asked: second,
        },
    }
}

// Flushes a partition, and says whether it took it.
fn flush_one<F: Changes>(front: &mut F, partition: u32, flush: Flush, key: &mut ItemBuf) -> bool
    requires low { partition < (F.options front.old).partitions }
    requires marks { has_marks (F.options front.old).hashing ≡ true }
    requires left { 0 < F.left front.old }
    ensures flushed { (answered : Answered) × FlushesOne (F.options front.old) flush partition answered
        × Answers (F.options front.old) F.is_alone (F.sessions front.old) answered (F.sessions front.new) × (result ≡ accepts answered) }
    ensures left { F.left front.old ≤ F.left front.new + 1 }
    ensures options { F.options front.new ≡ F.options front.old }
    ensures number { F.number front.new ≡ F.number front.old }
    ensures stands { F.stands front.new ≡ F.stands front.old }
{
    front.flush_key(partition, flush, key);
    let (outcome, _stamp) = front.delete(key.value());
    outcome.is_accepted()
}

/// Flushes the partitions in order, and says whether each took it. The buffer is for keys.
pub fn flush_all<F: Changes>(
    front: &mut F,
    partitions: u32,
    flush: Flush,
    key: &mut ItemBuf,
) -> bool
    requires partitions { partitions ≡ (F.options front.old).partitions }
    requires marks { has_marks (F.options front.old).hashing ≡ true }
    requires left { partitions ≤ F.left front.old }
    ensures flushed { (answers : List Answered) × AnswersInOrder (F.options front.old) F.is_alone (F.sessions front.old) answers (F.sessions front.new)
        × FlushesFrom (F.options front.old) flush 0 answers × (length answers ≡ partitions) × (result ≡ list_all accepts answers)
        × (F.left front.old ≤ F.left front.new + count_of_writes answers) }
    ensures left { F.left front.old ≤ F.left front.new + partitions }
    ensures options { F.options front.new ≡ F.options front.old }
    ensures number { F.number front.new ≡ F.number front.old }
    ensures stands { F.stands front.new ≡ F.stands front.old }
{
    let mut took = true;
    for partition in 0..partitions {
        let one = flush_one(front, partition, flush, key);
        took = took & one;
    }
    took
}

//! A partition: a machine of one thread over an owner's words.
ghost use Rattle.std.specs.Prelude.{◌≡◌, [], length};
ghost use Rattle.atomic_table.specs.Seated.{TableId};
ghost use Rattle.mica_words.specs.Item.{KeyFits, StoredFits};
ghost use Rattle.partition_model.specs.declared.write.Op.TheVariants.{Put, Add, Touch, Del};
ghost use Rattle.partition_model.specs.Write.{HasValueOf, write_of};
ghost use Rattle.partition_model.specs.History.{stamp_of, answer_of};
ghost use Rattle.partition_model.specs.Answer.{IsAnswer};
ghost use Rattle.partition_words.specs.declared.state.OwnerState.{OwnerState};
ghost use Rattle.partition_words.specs.OwnerState.{options_in};
ghost use Rattle.partition_words.specs.OwnerStep.{IsOwnerStep};

use partition_model::{Answer, ItemBuf, Op, Outcome};

/// A partition, each of whose writes is a step of its machine. No call takes memory.
pub trait Partition {
    /// Between calls no write is begun.
    ghost owner: { Self → OwnerState };

    /// The table that the views of the owner and of its readers stand in. No call changes it.
    ghost home: { Self → TableId };

    fn put(&mut self, key: &[u8], value: &[u8]) -> Outcome
        requires key { KeyFits key.now }
        requires value { StoredFits value.now }
        ensures step { IsOwnerStep (owner self.old) (owner self.new)
            (write_of Put key.now value.now) result }
        ensures home { home self.new ≡ home self.old };

    /// Stores the value where the key has none.
    fn add(&mut self, key: &[u8], value: &[u8]) -> Outcome
        requires key { KeyFits key.now }
        requires value { StoredFits value.now }
        ensures step { IsOwnerStep (owner self.old) (owner self.new)
            (write_of Add key.now value.now) result }
        ensures home { home self.new ≡ home self.old };

    /// Keeps the value that the key has, whose item is the newest in cache mode.
    fn touch(&mut self, key: &[u8]) -> Outcome
        requires { KeyFits key.now }
        ensures step { IsOwnerStep (owner self.old) (owner self.new)
            (write_of Touch key.now []) result }
        ensures home { home self.new ≡ home self.old };

    fn del(&mut self, key: &[u8]) -> Outcome
        requires { KeyFits key.now }
        ensures step { IsOwnerStep (owner self.old) (owner self.new)
            (write_of Del key.now []) result }
        ensures home { home self.new ≡ home self.old };

    /// Copies the key's value into the buffer, which is empty afterwards where there is none.
    /// Only loads happen.
    fn get(&mut self, key: &[u8], out: &mut ItemBuf) -> Answer
        requires { KeyFits key.now }
        ensures answer { IsAnswer result out.new
            (answer_of (options_in (owner self.old)) (owner self.old).history key.now) }
        ensures same { owner self.new ≡ owner self.old }
        ensures home { home self.new ≡ home self.old };

    /// The stamp after the last accepted write.
    fn stamp(&self) -> u64
        ensures { result ≡ stamp_of (options_in (owner self.now)) (owner self.now).history };

    /// How many writes were accepted.
    fn accepted(&self) -> u64
        ensures { result ≡ length (owner self.now).history };
}

/// Does a write in the partition. The value is empty where the operation has none.
pub fn write_to<P: Partition>(part: &mut P, op: Op, key: &[u8], value: &[u8]) -> Outcome
    requires key { KeyFits key.now }
    requires value { HasValueOf op value.now }
    ensures step { IsOwnerStep (P.owner part.old) (P.owner part.new) (write_of op key.now value.now) result }
    ensures home { P.home part.new ≡ P.home part.old }
{
    match op {
        Op::Put => part.put(key, value),
        Op::Add => part.add(key, value),
        Op::Touch => part.touch(key),
        Op::Del => part.del(key),
    }
}

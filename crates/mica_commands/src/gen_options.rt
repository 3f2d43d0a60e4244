//! The options of a generated trace.
ghost use Rattle.std.specs.Prelude.{◌≡◌, true};
ghost use Rattle.std.specs.Int.{is_in_range};
ghost use Rattle.mica_commands.specs.GenOptions.{are_in_ranges, has_room, is_valid, longest_text, syncs_of};

use mica_trace::{MAX_LINES, MAX_ROUNDS};
use server_words::MAX_SOURCE_LEN;

/// What a trace is generated from.
#[derive(Clone, Copy, PartialEq, Eq)]
pub struct GenOptions {
    /// Where the generator starts.
    pub seed: u64,
    /// How many operations the trace has, syncs apart.
    pub ops: u32,
    /// How many keys there are.
    pub keys: u32,
    pub key_len: u32,
    pub value_len: u32,
    /// How many of 100 operations are gets.
    pub gets: u32,
    /// How many of 100 operations are deletes.
    pub dels: u32,
    /// How many of 100 operations go to the hot keys, which are one of 100 keys.
    pub hot: u32,
    /// After how many operations a round ends.
    pub every: u32,
}

impl GenOptions {
    /// How many syncs the trace has.
    pub fn syncs(&self) -> u32
        requires { are_in_ranges self.now ≡ true }
        ensures { result ≡ syncs_of self.now }
    {
        (self.ops - 1) / self.every
    }

    /// No text of the trace is longer: its operations may all be puts.
    pub fn longest_text(&self) -> u32
        requires { are_in_ranges self.now ≡ true }
        ensures { result ≡ longest_text self.now }
    {
        self.ops * (6 + self.key_len + self.value_len) + 5 * self.syncs()
    }

    fn are_in_ranges(&self) -> bool
        ensures { result ≡ are_in_ranges self.now }
    {
        is_in(1, 100_000, self.ops)
            && is_in(1, 65_536, self.keys)
            && is_in(8, 255, self.key_len)
            && is_in(8, 1_024, self.value_len)
            && is_in(0, 100, self.gets)
            && is_in(0, 100, self.dels)
            && is_in(0, 100, self.hot)
            && is_in(1, 100_000, self.every)
    }

    fn has_room(&self) -> bool
        requires { are_in_ranges self.now ≡ true }
        ensures { result ≡ has_room self.now }
    {
        let syncs = self.syncs();
        self.gets + self.dels <= 100
            && syncs < MAX_ROUNDS
            && self.ops + syncs <= MAX_LINES
            && self.longest_text() as usize <= MAX_SOURCE_LEN
    }

    /// Whether each number is in its range, and the trace within the limits of one.
    pub fn is_valid(&self) -> bool
        ensures { result ≡ is_valid self.now }
    {
        self.are_in_ranges() && self.has_room()
    }
}

fn is_in(least: u32, most: u32, number: u32) -> bool
    ensures { result ≡ is_in_range least most number }
{
    least <= number && number <= most
}

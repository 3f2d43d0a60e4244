//! A sum over words in which each word counts: where one word is another, so is the sum.
#![tactic(auto)]

ghost use Rattle.std.specs.Prelude.{◌≡◌};
ghost use Rattle.word_sums.specs.Sum.{sum_on, sum_of, EachCounts, OneWordTells};

/// Odd, so that a product by it has an inverse: 2^64 by the golden ratio.
const FACTOR: u64 = 11_400_714_819_323_198_485;

/// The sum with one word more.
#[tactic(auto, unfolding(crate::specs::Sum::sum_on))]
pub fn sum_on(sum: u64, word: u64) -> u64
    ensures { result ≡ sum_on sum word }
{
    let mixed = (sum ^ word).wrapping_mul(FACTOR);
    (mixed % 4_294_967_296) * 4_294_967_296 + mixed / 4_294_967_296
}

/// The sum with these words more, one after another.
pub fn sum_of(sum: u64, words: &[u64]) -> u64
    ensures { result ≡ sum_of sum words.now }
{
    let mut behind = sum;
    for word in words {
        behind = sum_on(behind, *word);
    }
    behind
}

/// Two rows of words that differ in one have different sums.
#[tactic(auto, using(crate::proofs::Back::each_counts))]
pub fn each_counts()
    ensures { EachCounts }
{}

/// A row of summed blocks in which one word was changed is summed no longer.
#[tactic(auto, using(crate::proofs::Back::one_word_tells))]
pub fn one_word_tells()
    ensures { OneWordTells }
{}

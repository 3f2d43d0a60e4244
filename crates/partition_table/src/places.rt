//! Where words lie, with what was divided last at hand.
ghost use Rattle.std.specs.Prelude.{◌≡◌, ◌+◌, ◌*◌, ◌%◌, ◌^◌, ◌<◌};
ghost use Rattle.partition_words.specs.Layout.{place_at, item_at};
ghost use Rattle.partition_table.specs.Laps.{BeginsLap, BeginsBlock};

use partition_words::{Shape, WordAt};

/// The places of a shape's words. Item words go round the end of the words: the lap that was asked for last is
/// kept, so that the words of one item take one division, and none where they lie in that lap.
#[derive(Clone, Copy)]
pub(crate) struct Places {
    pub shape: Shape,
    // The place of the first item word.
    items: usize,
    // The offset at which the lap begins.
    lap: u64,
    pub ghost some: { 0 < shape.words },
    pub ghost first: { items ≡ 1 + 17 * shape.buckets + 16 * shape.spares },
    pub ghost whole: { lap % shape.words ≡ 0 },
}

impl Places {
    /// The places of a shape, at the first lap.
    pub fn new(shape: &Shape) -> Places
        requires { 0 < shape.now.words }
        ensures { result.shape ≡ shape.now }
    {
        Places {
            shape: *shape,
            items: shape.place(WordAt::Item(0)),
            lap: 0,
        }
    }

    /// Where the word lies.
    pub fn of(&mut self, at: WordAt) -> usize
        ensures place { result ≡ place_at self.old.shape at }
        ensures shape { self.new.shape ≡ self.old.shape }
    {
        match at {
            WordAt::Item(offset) => self.of_item(offset),
            _ => self.shape.place(at),
        }
    }

    fn of_item(&mut self, offset: u64) -> usize
        ensures place { result ≡ item_at self.old.shape offset }
        ensures shape { self.new.shape ≡ self.old.shape }
    {
        self.lap = self.lap_of(offset);
        self.items + (offset - self.lap) as usize
    }

    /// Where the first of eight item words lies, if they lie side by side.
    pub fn of_block(&mut self, offset: u64) -> Option<usize>
        requires { offset + 8 < 2 ^ 64 }
        ensures first { BeginsBlock self.old.shape offset result }
        ensures shape { self.new.shape ≡ self.old.shape }
    {
        self.lap = self.lap_of(offset);
        let into = offset - self.lap;
        if into + 8 <= u64::from(self.shape.words) {
            Some(self.items + into as usize)
        } else {
            None
        }
    }

    // Where the lap of the offset begins.
    fn lap_of(&self, offset: u64) -> u64
        ensures { BeginsLap self.now.shape.words offset result }
    {
        let words = u64::from(self.shape.words);
        if self.lap <= offset && offset - self.lap < words {
            self.lap
        } else {
            offset - offset % words
        }
    }
}

//! How far a sweep looks.
ghost use Rattle.std.specs.Prelude.{◌≤◌};
ghost use Rattle.command_answers.specs.declared.pace.TheConstants.{LONG_STRETCH};

/// The fewest places that one sweep looks at: so many where the last one found nothing to take away.
const LEAST_STRETCH: u32 = 1;

/// The most places that one sweep looks at where nobody wants room.
const MOST_STRETCH: u32 = 512;

/// So many places one sweep looks at where a write found no room. None looks at more.
pub const LONG_STRETCH: u32 = 4_096;

/// The most looks of one second for writes that found no room.
const MOST_LOOKS: u32 = 65_536;

/// So many items are enough for one sweep.
const MOST_TAKEN: u32 = 512;

/// How far a sweep looks: further after one that found something, and far where a write found no room.
#[derive(Clone, Copy)]
pub struct Pace {
    stretch: u32,
    hurried: bool,
    // How many looks this second has left for writes that found no room.
    second: u64,
    looks: u32,
}

impl Pace {
    /// The pace at which nobody waits for room.
    pub fn new() -> Pace {
        Pace {
            stretch: LEAST_STRETCH,
            hurried: false,
            second: 0,
            looks: 0,
        }
    }

    /// A write found no room.
    pub fn hurry(&mut self) {
        self.hurried = true;
    }

    /// Nobody wants room any more, or none is to be had.
    pub fn rest(&mut self) {
        self.hurried = false;
    }

    /// Whether a write waits for room.
    pub fn is_hurried(&self) -> bool {
        self.hurried
    }

    /// How many places the next sweep looks at.
    pub fn places(&mut self, second: u64) -> u32
        ensures { result ≤ LONG_STRETCH }
    {
        if !self.hurried {
            return LONG_STRETCH.min(self.stretch);
        }
        if second != self.second {
            self.second = second;
            self.looks = MOST_LOOKS;
        }
        LONG_STRETCH.min(self.looks.max(self.stretch))
    }

    /// Whether a sweep that took so many items away may stop.
    pub fn is_enough(&self, taken: u32) -> bool {
        taken >= MOST_TAKEN
    }

    /// What the next sweep looks at after one that looked at so many places, and took so many items away.
    pub fn adapt(&mut self, looked: u32, taken: u32) {
        if self.hurried {
            self.looks = self.looks.saturating_sub(looked);
        }
        if taken > 0 {
            self.hurried = false;
            self.stretch = self.stretch.saturating_mul(2).min(MOST_STRETCH);
        } else {
            self.stretch = (self.stretch / 2).max(LEAST_STRETCH);
        }
    }
}

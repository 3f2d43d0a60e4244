//! How long a port looks for more before it sleeps.

/// How often it looks at most: for about as long as a client takes for its next command.
const MOST_LOOKS: u32 = 128;

/// One sleep of so many begins with all looks, whether these have paid or not.
const SLEEPS_BETWEEN: u32 = 64;

/// How often a port looks before it sleeps: to wake takes longer than many looks. A look that finds something pays for all; those before a sleep did not, and the next are half as many.
#[derive(Clone, Copy)]
pub(crate) struct Patience {
    looks: u32,
    sleeps: u32,
}

impl Patience {
    pub(crate) fn new() -> Patience {
        Patience {
            looks: MOST_LOOKS,
            sleeps: 0,
        }
    }

    /// How often it looks before its next sleep.
    pub(crate) fn looks(self) -> u32 {
        self.looks
    }

    /// Something was found.
    pub(crate) fn has_paid(&mut self) {
        self.looks = MOST_LOOKS;
    }

    /// Nothing was found, and the port sleeps.
    pub(crate) fn has_slept(&mut self) {
        self.sleeps = self.sleeps.wrapping_add(1);
        self.looks = if self.sleeps % SLEEPS_BETWEEN == 0 {
            MOST_LOOKS
        } else {
            self.looks / 2
        };
    }
}

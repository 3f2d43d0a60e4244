//! What goes wrong while a server goes on, for whoever reads the journal: a line a minute at most for each kind.
ghost use Rattle.std.specs.Prelude.{◌≡◌};
ghost use Rattle.daemon.specs.Journal.{is_minute_behind, is_due, due_of, told_after};

use std::alloc::Global;

/// So many seconds are between a line and the next one of its kind.
pub const MINUTE: u64 = 60;

/// What may go wrong while a server goes on.
#[derive(Clone, Copy)]
pub enum Trouble {
    /// A store found no room.
    StoreRefused,
    /// A connection was turned away, since there were as many as may be.
    TurnedAway,
    /// A connection was closed, since there was no memory for it.
    OutOfMemory,
    /// The system gave no connection, though one waited.
    NotAccepted,
}

/// What was told of a kind of trouble: how often it had come, and at which second.
#[derive(Clone, Copy)]
pub struct Told {
    pub count: u64,
    pub second: Option<u64>,
}

// Whether a minute has passed since the second of the last line, if there was one.
fn is_minute_behind(last: Option<u64>, second: u64) -> bool
    ensures { result ≡ is_minute_behind last second }
{
    match last {
        Some(last) => MINUTE <= second.saturating_sub(last),
        None => true,
    }
}

impl Told {
    /// Nothing.
    pub fn nothing() -> Told {
        Told {
            count: 0,
            second: None,
        }
    }

    // Whether it came more often than was told, and may be told at this second.
    fn is_due(&self, count: u64, second: u64) -> bool
        ensures { result ≡ is_due self.now count second }
    {
        self.count < count && is_minute_behind(self.second, second)
    }

    /// How often it came since it was told last, where it is told at this second; it came so often in all.
    pub fn due(&mut self, count: u64, second: u64) -> Option<u64>
        ensures due { result ≡ due_of self.old count second }
        ensures told { self.new ≡ told_after self.old count second }
    {
        if !self.is_due(count, second) {
            return None;
        }
        let more = count - self.count;
        self.count = count;
        self.second = Some(second);
        Some(more)
    }
}

/// What is told of it that came so often since the last line; `cause` is why the system refused something.
pub fn trouble_text(alloc: Global, trouble: Trouble, count: u64, cause: &str) -> Option<String> {
    let text = match trouble {
        Trouble::StoreRefused => format!(in alloc;
            "stores refused, since they found no room: {count}; see --memory"
        ),
        Trouble::TurnedAway => format!(in alloc;
            "connections turned away, since there were as many as may be: {count}; see --connections"
        ),
        Trouble::OutOfMemory => format!(in alloc;
            "connections closed, since there was no memory for them: {count}; see --buffers, and what the system has free"
        ),
        Trouble::NotAccepted => format!(in alloc;
            "connections wait, since the system gave none: {count} times, {cause}"
        ),
    };
    text.ok()
}

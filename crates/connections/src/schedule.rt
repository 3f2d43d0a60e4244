//! What a schedule says: everything that happens at the other ends of connections, in order.
use outside::Bytes;

/// What happens at the peer of a connection.
#[derive(Clone, Copy)]
pub struct Change {
    /// So many seconds pass before it.
    pub passes: u32,
    /// So many bytes more of what it sends come.
    pub comes: u32,
    /// It takes so many bytes more.
    pub takes: u32,
    /// It sends nothing more.
    pub ends: bool,
    /// The connection breaks, and of what waits so many bytes can be read still.
    pub breaks: Option<u32>,
}

impl Change {
    /// A change of nothing.
    pub const NOTHING: Change = Change {
        passes: 0,
        comes: 0,
        takes: 0,
        ends: false,
        breaks: None,
    };
}

/// One step of the world.
#[derive(Drop)]
pub enum Step {
    /// A connection is made: how many bytes writes take at first, and all that its peer sends.
    Opens(u32, Bytes),
    /// A connection comes beyond what the port may have at a time, and is turned away.
    TurnsAway,
    /// Something happens at the connection that was made as this one, from 0, and it is reported.
    Reports(u32, Change),
    /// Something happens at that connection, maybe in the midst of other calls: then it is reported later.
    Happens(u32, Change),
}

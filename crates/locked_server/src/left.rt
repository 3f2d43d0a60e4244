//! What a server leaves once it has ended.
ghost use Rattle.std.specs.Prelude.{◌≡◌, []};

use partition_table::Tables;

/// The owners' seats, in the order of the partitions, where no front failed; and for how many connections there was no memory, whatever the server came to.
#[derive(Drop)]
pub struct Left {
    pub tables: Tables,
    pub lacked: u64,
}

impl Left {
    /// Nothing, as before a server begins.
    pub fn nothing() -> Left
        ensures tables { result.tables ≡ [] }
        ensures uncounted { result.lacked ≡ 0 }
    {
        Left {
            tables: Tables::new(),
            lacked: 0,
        }
    }
}

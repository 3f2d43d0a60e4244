//! The gate of one front.

use outside::Gate;

/// The gate of one front: its turns in a batch are turns in the whole run.
#[derive(Drop)]
pub(crate) struct FrontGate<'a, G> {
    pub gate: &'a G,
    pub worker: u32,
    /// How many requests the front answered before the batch.
    pub base: u32,
}

impl<'a, G: Gate> Gate for FrontGate<'a, G> {
    fn turn(&self, _worker: u32, call: u32) {
        self.gate.turn(self.worker, self.base.saturating_add(call));
    }
}

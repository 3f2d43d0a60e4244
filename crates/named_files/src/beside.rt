//! The file beside as a sink.
ghost use Rattle.std.specs.Prelude.{None, option_map};

use crate::Place;
use outside::{Failed, Sink};

/// The file beside the file of a place, as a sink for those who write piece by piece.
#[derive(Drop)]
pub struct Beside<P> {
    pub place: P,
}

impl<P: Place> Sink for Beside<P> {
    ghost taken = { λ s. option_map (λ state. state.beside) (P.state s.place) };

    ghost faults = { λ s. P.faults s.place };

    ghost script = { λ _. None };

    ghost room = { λ _. None };

    fn write(&mut self, piece: &[u8]) -> Result<usize, Failed> {
        self.place.append(piece)?;
        Ok(piece.len())
    }
}

//! What a client's bytes spell, as more of them come.
ghost use Rattle.command_answers.specs.Laws.{GoesOnSpelling};

/// What bytes spell, they spell with more bytes behind them.
pub fn spells_on()
    ensures { GoesOnSpelling }
{}

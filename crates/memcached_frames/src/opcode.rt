//! The opcodes of the binary protocol.
ghost use Rattle.std.specs.Prelude.{◌≡◌, true, false};
ghost use Rattle.memcached_frames.specs.Opcodes.{opcode_of, fits_extras, fits_key, has_value};

/// The most bytes that stand before a key: those of a count.
pub const MOST_EXTRAS: usize = 20;

/// What a request asks for.
#[derive(Clone, Copy)]
pub enum Verb {
    Get,
    Set,
    Add,
    Replace,
    Delete,
    Up,
    Down,
    Quit,
    Flush,
    Noop,
    Version,
    Append,
    Prepend,
    Stat,
    /// A get that keeps the item for a lifetime, and shows no value.
    Touch,
    GetTouch,
}

/// An opcode that is carried out.
#[derive(Clone, Copy)]
pub struct Opcode {
    pub verb: Verb,
    /// A reply tells the key of what was asked.
    pub named: bool,
    /// No reply is wanted where all went as asked, and none to a get that finds nothing.
    pub quiet: bool,
}

// Told as it is asked for.
const fn plain(verb: Verb) -> Opcode
    ensures { result ≡ record { verb = verb; named = false; quiet = false } }
{
    Opcode {
        verb,
        named: false,
        quiet: false,
    }
}

impl Opcode {
    // Told only where it does not go as it is asked for.
    fn quietly(self) -> Opcode
        ensures { result ≡ record self { quiet = true } }
    {
        Opcode {
            quiet: true,
            ..self
        }
    }

    // Told with the key.
    fn with_key(self) -> Opcode
        ensures { result ≡ record self { named = true } }
    {
        Opcode {
            named: true,
            ..self
        }
    }
}

/// What an opcode asks for, where it is one that is carried out.
#[tactic(auto, unfolding(crate::specs::Opcodes::opcode_of))]
pub fn opcode_of(code: u8) -> Option<Opcode>
    ensures { result ≡ opcode_of code }
{
    let opcode = match code {
        0 => plain(Verb::Get),
        1 => plain(Verb::Set),
        2 => plain(Verb::Add),
        3 => plain(Verb::Replace),
        4 => plain(Verb::Delete),
        5 => plain(Verb::Up),
        6 => plain(Verb::Down),
        7 => plain(Verb::Quit),
        8 => plain(Verb::Flush),
        9 => plain(Verb::Get).quietly(),
        10 => plain(Verb::Noop),
        11 => plain(Verb::Version),
        12 => plain(Verb::Get).with_key(),
        13 => plain(Verb::Get).with_key().quietly(),
        14 => plain(Verb::Append),
        15 => plain(Verb::Prepend),
        16 => plain(Verb::Stat),
        17 => plain(Verb::Set).quietly(),
        18 => plain(Verb::Add).quietly(),
        19 => plain(Verb::Replace).quietly(),
        20 => plain(Verb::Delete).quietly(),
        21 => plain(Verb::Up).quietly(),
        22 => plain(Verb::Down).quietly(),
        23 => plain(Verb::Quit).quietly(),
        24 => plain(Verb::Flush).quietly(),
        25 => plain(Verb::Append).quietly(),
        26 => plain(Verb::Prepend).quietly(),
        28 => plain(Verb::Touch),
        29 => plain(Verb::GetTouch),
        30 => plain(Verb::GetTouch).quietly(),
        35 => plain(Verb::GetTouch).with_key(),
        36 => plain(Verb::GetTouch).with_key().quietly(),
        _ => return None,
    };
    Some(opcode)
}

impl Verb {
    /// Whether so many bytes may stand before its key.
    pub fn fits_extras(self, len: u8) -> bool
        ensures { result ≡ fits_extras self len }
    {
        match self {
            Verb::Set | Verb::Add | Verb::Replace => len == 8,
            Verb::Up | Verb::Down => len == 20,
            Verb::Touch | Verb::GetTouch => len == 4,
            Verb::Flush => len == 0 || len == 4,
            _ => len == 0,
        }
    }

    /// Whether its key may have so many bytes.
    pub fn fits_key(self, len: u16) -> bool
        ensures { result ≡ fits_key self len }
    {
        match self {
            Verb::Quit | Verb::Flush | Verb::Noop | Verb::Version => len == 0,
            Verb::Stat => true,
            _ => len > 0,
        }
    }

    /// Whether a value stands behind its key.
    pub fn has_value(self) -> bool
        ensures { result ≡ has_value self }
    {
        matches!(
            self,
            Verb::Set | Verb::Add | Verb::Replace | Verb::Append | Verb::Prepend
        )
    }
}

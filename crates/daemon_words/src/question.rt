//! Questions about the program, which words may ask in place of a server.
ghost use Rattle.std.specs.Prelude.{◌≡◌, map, string_bytes};
ghost use Rattle.daemon_words.specs.Questions.{question_in, question_of};

/// What words may ask about the program.
#[derive(Clone, Copy, PartialEq, Eq)]
pub enum Question {
    Help,
    Version,
}

// The question that a word asks, if it is one that does.
fn question_in(word: &str) -> Option<Question>
    ensures { result ≡ question_in word.now }
{
    match word {
        "--help" => Some(Question::Help),
        "-h" => Some(Question::Help),
        "--version" => Some(Question::Version),
        "-V" => Some(Question::Version),
        _ => None,
    }
}

/// The question that the first such word asks.
pub fn question_of(words: &[String]) -> Option<Question>
    ensures { result ≡ question_of (map string_bytes words.now) }
{
    for word in words {
        if let Some(question) = question_in(word.as_str()) {
            return Some(question);
        }
    }
    None
}

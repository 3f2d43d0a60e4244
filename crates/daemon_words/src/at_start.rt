//! What words say beside the server: how much is told, as whom it runs, and where the number of its process is written.

/// How often words ask for more to be told.
pub fn verbosity(words: &[String]) -> u32 {
    let mut all = 0u32;
    for word in words {
        let more = match word.as_str() {
            "-v" => 1,
            "-vv" => 2,
            "-vvv" => 3,
            _ => 0,
        };
        all = all.saturating_add(more);
    }
    all
}

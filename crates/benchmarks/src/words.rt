//! The words of the command line.
use stream_ident::parse_number;

/// Whether a word is among these.
pub fn has(words: &[String], word: &str) -> bool {
    for own in words {
        if own.as_str() == word {
            return true;
        }
    }
    false
}

/// Puts the numbers among the words into the places of these, of which the last ones stay where there are fewer. None
/// is over 100,000.
pub fn read_numbers(words: &[String], numbers: &mut [u64]) {
    let mut at = 0usize;
    for word in words {
        let Some(number) = parse_number(word.as_bytes()) else {
            continue;
        };
        if at < numbers.len() {
            numbers[at] = number.min(100_000);
            at += 1;
        }
    }
}

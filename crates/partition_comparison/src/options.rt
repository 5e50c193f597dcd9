//! The command line.
use crate::fault::Fault;
use stream_ident::parse_number;

/// Which histories are made.
#[derive(Clone, Copy)]
pub struct Plan {
    /// How many histories.
    pub runs: u64,
    /// How many rounds of eight operations each has.
    pub rounds: u64,
    /// The seed of the first: each has one more than that before.
    pub seed: u64,
}

/// The plan that the words ask for: `RUNS`, `ROUNDS` and `SEED`, of which the last ones may be left out.
///
/// # Errors
/// More words, and one that is no number.
pub fn parse(words: &[String]) -> Result<Plan, Fault> {
    if words.len() > 3 {
        return Err(Fault::CommandLine);
    }
    Ok(Plan {
        runs: number(words.first(), 300)?,
        rounds: number(words.get(1), 128)?,
        seed: number(words.get(2), 0)?,
    })
}

/// The number that a word says, or this one where there is no word.
fn number(word: Option<&String>, otherwise: u64) -> Result<u64, Fault> {
    match word {
        Some(word) => parse_number(word.as_bytes()).ok_or(Fault::CommandLine),
        None => Ok(otherwise),
    }
}

// Words of a run, and numbers that look random.
ghost use Rattle.std.specs.Prelude.{◌≡◌, ◌≤◌, ◌⊎◌, length, [], IfErr};

use std::env::{self, Env};

/// The status where words or a file are refused.
pub(crate) const REFUSED: u8 = 3;

/// The status where memory runs out.
pub(crate) const WANT: u8 = 6;

/// The words of the run, the program's name first; the status that it ends with where they can't be read.
pub(crate) fn words_of<R: Env + AllocGlobal>(rt: &R) -> Result<Vec<String>, u8>
    ensures { IfErr result (λ status. (status ≡ 3) ⊎ (status ≡ 6)) }
{
    let Ok(words) = env::args(rt) else {
        return Err(REFUSED);
    };
    match words.collect::<Vec<String>>(rt.alloc()) {
        Ok(words) => Ok(words),
        Err(_) => Err(WANT),
    }
}

/// The number that the word at a place is, or 0 where it is none or too large.
pub(crate) fn number(words: &[String], place: usize) -> u32
    ensures beyond { length words.now ≤ place → result ≡ 0 }
{
    match words.get(place) {
        Some(word) => word.parse::<u32>().unwrap_or(0),
        None => 0,
    }
}

/// The word at a place, or an empty one.
pub(crate) fn word(words: &[String], place: usize) -> &str
    ensures beyond { length words.now ≤ place → result.now ≡ [] }
{
    match words.get(place) {
        Some(word) => word.as_str(),
        None => "",
    }
}

/// The number after this one in a sequence that looks random; its upper half is the better one.
pub(crate) fn next(state: u64) -> u64 {
    state
        .wrapping_mul(6364136223846793005)
        .wrapping_add(1442695040888963407)
}

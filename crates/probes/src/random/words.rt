//! The arguments of the command line.

use super::fault::Fault;

/// The task: the number of lists, the steps of each, the seed of the random stream, and whether the
/// run continues after failed allocations.
#[derive(Clone, Copy, Debug, PartialEq)]
pub struct Task {
    pub lists: u32,
    pub steps: u32,
    pub seed: u64,
    pub goes_on: bool,
}

// Returns the number that an argument spells.
fn number(word: Option<&String>) -> Result<u64, Fault> {
    let Some(word) = word else {
        return Err(Fault::Words);
    };
    let Ok(number) = word.as_str().parse::<u64>() else {
        return Err(Fault::Words);
    };
    Ok(number)
}

// Returns the number that an argument spells, if it has 32 bits.
fn small_number(word: Option<&String>) -> Result<u32, Fault> {
    let Ok(small) = u32::try_from(number(word)?) else {
        return Err(Fault::Words);
    };
    Ok(small)
}

// Returns true if the argument `on` is there.
fn is_on(word: Option<&String>) -> Result<bool, Fault> {
    let Some(word) = word else {
        return Ok(false);
    };
    if word.as_str() != "on" {
        return Err(Fault::Words);
    }
    Ok(true)
}

/// Returns the task that the arguments (the program's name and a word first) request.
pub fn task_of(words: &[String]) -> Result<Task, Fault> {
    let lists = small_number(words.get(2))?;
    let steps = small_number(words.get(3))?;
    let seed = number(words.get(4))?;
    let goes_on = is_on(words.get(5))?;
    if lists == 0 || words.len() > 6 {
        return Err(Fault::Words);
    }
    Ok(Task {
        lists,
        steps,
        seed,
        goes_on,
    })
}

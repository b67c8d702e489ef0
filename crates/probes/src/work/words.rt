//! The arguments of the command line.

use super::agendas::{Act, Rounds};
use super::fault::Fault;
use super::lines::Told;

/// The kind of agenda.
#[derive(Clone, Copy, Debug, PartialEq)]
pub enum Kind {
    Wheel,
    List,
}

/// The work to do.
#[derive(Clone, Copy)]
pub enum Work {
    Turns { residents: usize },
    Alone { residents: usize },
    Moves { packets: u16, times: u32 },
    Agenda { kind: Kind, rounds: Rounds },
    Report { told: Told, lines: u32, times: u32 },
    Read { times: u32 },
}

// Returns the number that an argument spells.
fn number(word: Option<&String>) -> Result<u32, Fault> {
    let Some(word) = word else {
        return Err(Fault::Words);
    };
    let Ok(number) = word.as_str().parse::<u32>() else {
        return Err(Fault::Words);
    };
    Ok(number)
}

// Returns the number of residents.
fn residents(words: &[String]) -> Result<usize, Fault> {
    Ok(number(words.get(3))? as usize)
}

// Returns the number of a resident's packets, and how often it is moved.
fn moves(words: &[String]) -> Result<Work, Fault> {
    let Ok(packets) = u16::try_from(number(words.get(3))?) else {
        return Err(Fault::Range);
    };
    let times = number(words.get(4))?;
    Ok(Work::Moves { packets, times })
}

// Returns the work that an argument requests of an agenda.
fn act(word: Option<&String>) -> Result<Act, Fault> {
    let Some(word) = word else {
        return Err(Fault::Words);
    };
    match word.as_str() {
        "fill" => Ok(Act::Fill),
        "one" => Ok(Act::One),
        "spread" => Ok(Act::Spread),
        "set" => Ok(Act::Set),
        "clear" => Ok(Act::Clear),
        _ => Err(Fault::Words),
    }
}

// Returns the work with an agenda.
fn agenda(kind: Kind, words: &[String]) -> Result<Work, Fault> {
    let rounds = Rounds {
        act: act(words.get(3))?,
        entries: number(words.get(4))?,
        times: number(words.get(5))?,
    };
    Ok(Work::Agenda { kind, rounds })
}

// Returns the work of a report about a subject.
fn report(told: Told, words: &[String]) -> Result<Work, Fault> {
    let lines = number(words.get(3))?;
    let times = number(words.get(4))?;
    Ok(Work::Report { told, lines, times })
}

/// Returns the work that the arguments (the program's name and `work` first) request.
pub fn work_of(words: &[String]) -> Result<Work, Fault> {
    let Some(word) = words.get(2) else {
        return Err(Fault::Words);
    };
    match word.as_str() {
        "turns" => Ok(Work::Turns {
            residents: residents(words)?,
        }),
        "alone" => Ok(Work::Alone {
            residents: residents(words)?,
        }),
        "moves" => moves(words),
        "wheel" => agenda(Kind::Wheel, words),
        "list" => agenda(Kind::List, words),
        "flow" => report(Told::Flow, words),
        "train" => report(Told::Train, words),
        "drops" => report(Told::Drops, words),
        "read" => Ok(Work::Read {
            times: number(words.get(3))?,
        }),
        _ => Err(Fault::Words),
    }
}

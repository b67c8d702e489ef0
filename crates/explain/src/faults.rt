//! The explanation of a text that is not a scenario.

use crate::expected_words::expected_at;
use crate::finding::find;
use crate::further::{faults_behind, show_found};
use crate::show_findings::{put_row, show_finding};
use crate::span::{line_at, span_of_word};
use control::{Behind, Blamed, Cause, Check, Fault, blame, blame_behind};
use std::alloc::{AllocError, Global};

/// The maximum number of faulty words in a line. If there are more, the words are taken to be in
/// another order, and only the first is reported.
const MAX_WORDS: usize = 5;

// Returns the index of the faulty word that is reported first, if the fault is in a word.
fn told_word(line: &[u8], cause: Cause) -> Option<usize> {
    match cause {
        Cause::BadWord => Some(blame(line, Check::Forms)?.index),
        Cause::OutOfRange => Some(blame(line, Check::Ranges)?.index),
        _ => None,
    }
}

// Appends a row for another faulty word: the word, and what was expected. Returns false if there is
// no such word.
fn put_word(out: &mut Vec<u8>, line: &[u8], blamed: &Blamed) -> Result<bool, AllocError> {
    let place = span_of_word(line, blamed.index);
    let word = &line[place.start..place.start + place.width];
    out.extend_from_slice(b"  also: `")?;
    out.extend_from_slice(word)?;
    let wanted = expected_at(blamed.expected, word);
    put_row(out, "`, expected: ", wanted.expected.as_bytes())?;
    Ok(!word.is_empty())
}

// Returns the rows for the other faulty words of a line. Returns no rows if the words may belong to
// other places than they seem to.
fn others_in(alloc: Global, line: &[u8], told: usize) -> Result<Vec<u8>, AllocError> {
    let mut out = Vec::new(alloc);
    let mut next = blame(line, Check::Ranges);
    for _ in 0..MAX_WORDS {
        let Some(blamed) = next else {
            return Ok(out);
        };
        if blamed.index != told && !put_word(&mut out, line, &blamed)? {
            return Ok(Vec::new(alloc));
        }
        next = match blame_behind(line, &blamed) {
            Behind::Fine => None,
            Behind::Fault(behind) => Some(behind),
            Behind::Unsure => return Ok(Vec::new(alloc)),
        };
    }
    Ok(Vec::new(alloc))
}

// Appends the rows for the other faulty words of the line with a fault.
fn put_others(
    out: &mut Vec<u8>,
    alloc: Global,
    text: &[u8],
    fault: &Fault,
) -> Result<(), AllocError> {
    let Some(line) = line_at(text, fault.line) else {
        return Ok(());
    };
    let Some(told) = told_word(line, fault.cause) else {
        return Ok(());
    };
    let others = others_in(alloc, line, told)?;
    out.extend_from_slice(others.as_slice())
}

/// Returns the explanation of the first fault of a text, which follows the line of the fault, and
/// of the later faults.
pub fn faults_text(alloc: Global, text: &[u8], first: &Fault) -> Result<Vec<u8>, AllocError> {
    let mut out = show_finding(alloc, &find(text, first))?;
    put_others(&mut out, alloc, text, first)?;
    let behind = faults_behind(alloc, text, first)?;
    for fault in behind.as_slice() {
        let shown = show_found(alloc, fault, &find(text, fault))?;
        out.extend_from_slice(shown.as_slice())?;
        put_others(&mut out, alloc, text, fault)?;
    }
    Ok(out)
}

//! The requests of a session, which a scenario doesn't have. In a scenario these lines are
//! comments.

ghost use Rattle.std.specs.Prelude.{◌≡◌, ◌≤◌, ◌^◌, ◌++◌, IfOk, IfSome, MatchResult, codes, option_map};
ghost use Rattle.control_words.specs.Text.{words as words_of};
ghost use Rattle.session.specs.Requests.{IsInRange, asked_of, hold_of, first_of, until_of, used_of, shown_of, next_of, trace_of, ended_of, shape_of, asked_within, time_within, request_of, view_request, view_raw};

use control::Cause;
use control_words::addresses::name as name_in;
use control_words::numbers::{moment, number};
use control_words::{Words, is};
use emu_model::LATEST_MOMENT;

/// A request.
#[derive(Clone, Copy)]
pub enum Request<'a> {
    /// `until @M`: all events due before this time (ns) are to happen.
    Until { limit: u64 },
    /// `until @M first [G]`: like `until @M`, but stops `hold` ns after the first delivery or drop
    /// of an injected packet.
    UntilMine { limit: u64, hold: u64 },
    /// `until @M first any [G]`: like `until @M first`, for any packet.
    UntilAny { limit: u64, hold: u64 },
    /// `next`: queries the time of the next event.
    Next,
    /// `next on`, `next off`: sets whether the answer to `next` is added to other answers from now
    /// on.
    AddNext { on: bool },
    /// `use NAME`: the lines that follow are for this experiment.
    Use { name: &'a [u8] },
    /// `show all`, `show mine`: sets which records are reported from now on.
    Show { all: bool },
    /// `trace on`, `trace off`: sets whether experiments that begin from now on are traced.
    Trace { on: bool },
    /// `help`: lists the requests.
    Help,
}

// A request whose numbers haven't been checked.
#[derive(Clone, Copy)]
enum RawRequest<'a> {
    Until { limit: u128 },
    UntilMine { limit: u128, hold: u128 },
    UntilAny { limit: u128, hold: u128 },
    Next,
    AddNext { on: bool },
    Use { name: &'a [u8] },
    Show { all: bool },
    Trace { on: bool },
    Help,
}

/// Returns the rest of a line that is a request, which means that it begins with `#>`.
#[tactic(auto, unfolding(crate::specs::Requests::asked_of))]
pub fn asked_in(line: &[u8]) -> Option<&[u8]>
    ensures value { option_map (λ rest. rest.now) result ≡ asked_of line.now }
    ensures rest { IfSome result (λ rest. line.now ≡ codes "#>" ++ rest.now) }
{
    match line {
        [b'#', b'>', rest @ ..] => Some(rest),
        _ => None,
    }
}

// Returns the last word as a number, or 1 if there is no word.
#[tactic(auto, unfolding(crate::specs::Requests::hold_of))]
fn hold_number(words: &mut Words) -> Option<u128>
    ensures { result ≡ hold_of (words_of words.old.rest.now) }
{
    let Some(word) = words.next_word() else {
        return Some(1);
    };
    let hold = number(word)?;
    words.expect_end()?;
    Some(hold)
}

// Parses what follows `until @M first`.
#[tactic(auto, unfolding(crate::specs::Requests::first_of))]
fn first_request<'a>(words: &mut Words<'a>, limit: u128) -> Option<RawRequest<'a>>
    ensures { option_map view_raw result ≡ first_of limit (words_of words.old.rest.now) }
{
    let mut ahead = *words;
    if ahead.expect_word("any").is_some() {
        let hold = hold_number(&mut ahead)?;
        return Some(RawRequest::UntilAny { limit, hold });
    }
    let hold = hold_number(words)?;
    Some(RawRequest::UntilMine { limit, hold })
}

// Parses what follows `until`.
#[tactic(auto, unfolding(crate::specs::Requests::until_of))]
fn until_request<'a>(words: &mut Words<'a>) -> Option<RawRequest<'a>>
    ensures { option_map view_raw result ≡ until_of (words_of words.old.rest.now) }
{
    let limit = moment(words.next_word()?)?;
    let Some(word) = words.next_word() else {
        return Some(RawRequest::Until { limit });
    };
    if !is(word, "first") {
        return None;
    }
    first_request(words, limit)
}

// Parses what follows `next`.
#[tactic(auto, unfolding(crate::specs::Requests::next_of))]
fn next_request<'a>(words: &mut Words<'a>) -> Option<RawRequest<'a>>
    ensures { option_map view_raw result ≡ next_of (words_of words.old.rest.now) }
{
    let Some(word) = words.next_word() else {
        return Some(RawRequest::Next);
    };
    let on = is(word, "on");
    if !on && !is(word, "off") {
        return None;
    }
    words.expect_end()?;
    Some(RawRequest::AddNext { on })
}

// Parses what follows `use`.
#[tactic(auto, unfolding(crate::specs::Requests::used_of))]
fn use_request<'a>(words: &mut Words<'a>) -> Option<RawRequest<'a>>
    ensures { option_map view_raw result ≡ used_of (words_of words.old.rest.now) }
{
    let name = name_in(words.next_word()?)?;
    words.expect_end()?;
    Some(RawRequest::Use { name })
}

// Parses what follows `show`.
#[tactic(auto, unfolding(crate::specs::Requests::shown_of))]
fn show_request<'a>(words: &mut Words<'a>) -> Option<RawRequest<'a>>
    ensures { option_map view_raw result ≡ shown_of (words_of words.old.rest.now) }
{
    let word = words.next_word()?;
    let all = is(word, "all");
    if !all && !is(word, "mine") {
        return None;
    }
    words.expect_end()?;
    Some(RawRequest::Show { all })
}

// Parses what follows `trace`.
#[tactic(auto, unfolding(crate::specs::Requests::trace_of))]
fn trace_request<'a>(words: &mut Words<'a>) -> Option<RawRequest<'a>>
    ensures { option_map view_raw result ≡ trace_of (words_of words.old.rest.now) }
{
    let word = words.next_word()?;
    let on = is(word, "on");
    if !on && !is(word, "off") {
        return None;
    }
    words.expect_end()?;
    Some(RawRequest::Trace { on })
}

// Parses the end of a request that has only one word.
#[tactic(auto, unfolding(crate::specs::Requests::ended_of))]
fn word_request<'a>(words: &mut Words<'a>, request: RawRequest<'a>) -> Option<RawRequest<'a>>
    ensures { option_map view_raw result
        ≡ ended_of (view_raw request.entry) (words_of words.old.rest.now) }
{
    words.expect_end()?;
    Some(request)
}

// Parses the words of a request, without checking the numbers.
#[tactic(auto, unfolding(crate::specs::Requests::shape_of))]
fn shape<'a>(words: &mut Words<'a>) -> Option<RawRequest<'a>>
    ensures { option_map view_raw result ≡ shape_of (words_of words.old.rest.now) }
{
    let word = words.next_word()?;
    if is(word, "until") {
        until_request(words)
    } else if is(word, "next") {
        next_request(words)
    } else if is(word, "use") {
        use_request(words)
    } else if is(word, "show") {
        show_request(words)
    } else if is(word, "trace") {
        trace_request(words)
    } else if is(word, "help") {
        word_request(words, RawRequest::Help)
    } else {
        None
    }
}

// Returns a number of ns if it is from `least` to the latest time.
fn in_range(number: u128, least: u64) -> Option<u64>
    requires { least ≤ 10 ^ 15 }
    ensures value { result ≡ time_within least number }
    ensures range { IfSome result (λ n. (least ≤ n) × (n ≤ 10 ^ 15)) }
{
    if number < u128::from(least) || number > u128::from(LATEST_MOMENT) {
        return None;
    }
    Some(number as u64)
}

// Returns the request with its numbers, if they are in their ranges.
#[tactic(auto, unfolding(crate::specs::Requests::asked_within))]
fn in_ranges(request: RawRequest) -> Option<Request>
    ensures value { option_map view_request result ≡ asked_within (view_raw request.entry) }
    ensures range { IfSome result IsInRange }
{
    match request {
        RawRequest::Until { limit } => {
            let limit = in_range(limit, 0)?;
            Some(Request::Until { limit })
        }
        RawRequest::UntilMine { limit, hold } => {
            let limit = in_range(limit, 0)?;
            let hold = in_range(hold, 1)?;
            Some(Request::UntilMine { limit, hold })
        }
        RawRequest::UntilAny { limit, hold } => {
            let limit = in_range(limit, 0)?;
            let hold = in_range(hold, 1)?;
            Some(Request::UntilAny { limit, hold })
        }
        RawRequest::Next => Some(Request::Next),
        RawRequest::AddNext { on } => Some(Request::AddNext { on }),
        RawRequest::Use { name } => Some(Request::Use { name }),
        RawRequest::Show { all } => Some(Request::Show { all }),
        RawRequest::Trace { on } => Some(Request::Trace { on }),
        RawRequest::Help => Some(Request::Help),
    }
}

/// Parses a request, without its `#>`. Returns `BadWord` if the words aren't those of a request,
/// whatever the numbers are, and `OutOfRange` if a number exceeds 10^15 ns or a hold is 0.
#[tactic(auto, unfolding(crate::specs::Requests::request_of))]
pub fn read_request(line: &[u8]) -> Result<Request, Cause>
    ensures value { MatchResult result (λ r. request_of line.now ≡ Ok (view_request r))
        (λ c. request_of line.now ≡ Err c) }
    ensures range { IfOk result IsInRange }
{
    let mut words = Words { rest: line };
    let Some(request) = shape(&mut words) else {
        return Err(Cause::BadWord);
    };
    let Some(request) = in_ranges(request) else {
        return Err(Cause::OutOfRange);
    };
    Ok(request)
}

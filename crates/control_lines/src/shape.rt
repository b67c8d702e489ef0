//! Parses the words of a line, whatever its numbers are.

ghost use Rattle.std.specs.Prelude.{◌≡◌, option_map};
ghost use Rattle.control_words.specs.Text.{words as words_of};
ghost use Rattle.control_words.specs.Numbers.{number_of};
ghost use Rattle.control_words.specs.Words.{value};
ghost use Rattle.control_lines.specs.Shape.{
  action_of,
  source_ports_of,
  last_ports_of,
  rule_of,
  ends_of,
  send_of,
  train_of,
  flow_of,
  last_number_of,
  pipe_of,
  source_of,
  command_of,
  steps_of,
  header_of,
  shape_of,
  view_line,
  view_header,
};

use crate::raw::{
    RawAction, RawCommand, RawEnds, RawFlow, RawHeader, RawLine, RawRule, RawSend, RawTimed,
    RawTrain,
};
use control_words::{RawPorts, Words, addresses, flow_options, is, numbers, pipe_options};

fn number(words: &mut Words) -> Option<u128>
    ensures { option_map (λ n. (n, words_of words.new.rest.now)) result
        ≡ value number_of (words_of words.old.rest.now) }
{
    numbers::number(words.next_word()?)
}

/// Parses a number with nothing after it.
fn last_number(words: &mut Words) -> Option<u128>
    ensures { result ≡ last_number_of (words_of words.old.rest.now) }
{
    let n = number(words)?;
    words.expect_end()?;
    Some(n)
}

#[tactic(auto, unfolding(crate::specs::Shape::action_of))]
fn action(words: &mut Words) -> Option<RawAction>
    ensures { option_map (λ a. (a, words_of words.new.rest.now)) result
        ≡ action_of (words_of words.old.rest.now) }
{
    let verb = words.next_word()?;
    if is(verb, "allow") {
        Some(RawAction::Allow)
    } else if is(verb, "deny") {
        Some(RawAction::Deny)
    } else if is(verb, "count") {
        Some(RawAction::Count)
    } else if is(verb, "skipto") {
        Some(RawAction::SkipTo(number(words)?))
    } else if is(verb, "pipe") {
        Some(RawAction::Pipe(number(words)?))
    } else {
        None
    }
}

/// Parses the optional ports before `to`, and `to`.
#[tactic(auto, unfolding(crate::specs::Shape::source_ports_of))]
fn source_ports(words: &mut Words) -> Option<Option<RawPorts>>
    ensures { option_map (λ p. (p, words_of words.new.rest.now)) result
        ≡ source_ports_of (words_of words.old.rest.now) }
{
    let first = words.next_word()?;
    if is(first, "to") {
        return Some(None);
    }
    let ports = addresses::ports(first)?;
    words.expect_word("to")?;
    Some(Some(ports))
}

/// Parses the optional ports at the end of the line.
#[tactic(auto, unfolding(crate::specs::Shape::last_ports_of))]
fn last_ports(words: &mut Words) -> Option<Option<RawPorts>>
    ensures { result ≡ last_ports_of (words_of words.old.rest.now) }
{
    let Some(word) = words.next_word() else {
        return Some(None);
    };
    let ports = addresses::ports(word)?;
    words.expect_end()?;
    Some(Some(ports))
}

#[tactic(auto, unfolding(crate::specs::Shape::rule_of))]
fn rule(words: &mut Words) -> Option<RawRule>
    ensures { result ≡ rule_of (words_of words.old.rest.now) }
{
    let number = number(words)?;
    let action = action(words)?;
    let proto = addresses::protocol_match(words.next_word()?)?;
    words.expect_word("from")?;
    let src = addresses::prefix(words.next_word()?)?;
    let sports = source_ports(words)?;
    let dst = addresses::prefix(words.next_word()?)?;
    let dports = last_ports(words)?;
    Some(RawRule {
        number,
        action,
        proto,
        src,
        sports,
        dst,
        dports,
    })
}

#[tactic(auto, unfolding(crate::specs::Shape::ends_of))]
fn ends(words: &mut Words) -> Option<RawEnds>
    ensures { option_map (λ e. (e, words_of words.new.rest.now)) result
        ≡ ends_of (words_of words.old.rest.now) }
{
    let src = addresses::address(words.next_word()?)?;
    let sport = number(words)?;
    let dst = addresses::address(words.next_word()?)?;
    let dport = number(words)?;
    Some(RawEnds {
        src,
        sport,
        dst,
        dport,
    })
}

#[tactic(auto, unfolding(crate::specs::Shape::send_of))]
fn send(words: &mut Words) -> Option<RawSend>
    ensures { option_map (λ s. (s, words_of words.new.rest.now)) result
        ≡ send_of (words_of words.old.rest.now) }
{
    let proto = addresses::protocol(words.next_word()?)?;
    let ends = ends(words)?;
    let size = number(words)?;
    Some(RawSend { proto, ends, size })
}

#[tactic(auto, unfolding(crate::specs::Shape::train_of))]
fn train(words: &mut Words) -> Option<RawTrain>
    ensures { result ≡ train_of (words_of words.old.rest.now) }
{
    let number_of_train = number(words)?;
    let packet = send(words)?;
    words.expect_word("count")?;
    let count = number(words)?;
    words.expect_word("gap")?;
    let gap = last_number(words)?;
    Some(RawTrain {
        number: number_of_train,
        packet,
        count,
        gap,
    })
}

#[tactic(auto, unfolding(crate::specs::Shape::flow_of))]
fn flow(words: &mut Words) -> Option<RawFlow>
    ensures { result ≡ flow_of (words_of words.old.rest.now) }
{
    let number_of_flow = number(words)?;
    let ends = ends(words)?;
    words.expect_word("smss")?;
    let smss = number(words)?;
    words.expect_word("segments")?;
    let segments = number(words)?;
    let options = flow_options(*words)?;
    Some(RawFlow {
        number: number_of_flow,
        ends,
        smss,
        segments,
        options,
    })
}

#[tactic(auto, unfolding(crate::specs::Shape::pipe_of))]
fn pipe(words: &mut Words) -> Option<RawCommand>
    ensures { result ≡ pipe_of (words_of words.old.rest.now) }
{
    let word = words.next_word()?;
    if is(word, "show") {
        words.expect_end()?;
        Some(RawCommand::PipeShow)
    } else if is(word, "delete") {
        Some(RawCommand::PipeDelete(last_number(words)?))
    } else {
        let number = numbers::number(word)?;
        words.expect_word("config")?;
        Some(RawCommand::Config(number, pipe_options(*words)?))
    }
}

/// Parses a command about a sender.
#[tactic(auto, unfolding(crate::specs::Shape::source_of))]
fn source(verb: &[u8], words: &mut Words) -> Option<RawCommand>
    ensures { result ≡ source_of verb.now (words_of words.old.rest.now) }
{
    if is(verb, "inject") {
        let send = send(words)?;
        words.expect_end()?;
        Some(RawCommand::Inject(send))
    } else if is(verb, "train") {
        Some(RawCommand::Train(train(words)?))
    } else if is(verb, "flow") {
        Some(RawCommand::Flow(flow(words)?))
    } else if is(verb, "stop") {
        Some(RawCommand::Stop(last_number(words)?))
    } else {
        None
    }
}

#[tactic(auto, unfolding(crate::specs::Shape::command_of))]
fn command(words: &mut Words) -> Option<RawCommand>
    ensures { result ≡ command_of (words_of words.old.rest.now) }
{
    let verb = words.next_word()?;
    if is(verb, "add") {
        Some(RawCommand::Add(rule(words)?))
    } else if is(verb, "delete") {
        Some(RawCommand::Delete(last_number(words)?))
    } else if is(verb, "pipe") {
        pipe(words)
    } else if is(verb, "show") {
        words.expect_end()?;
        Some(RawCommand::Show)
    } else if is(verb, "one_pass") {
        Some(RawCommand::OnePass(last_number(words)?))
    } else if is(verb, "trace") {
        Some(RawCommand::Trace(last_number(words)?))
    } else if is(verb, "end") {
        words.expect_end()?;
        Some(RawCommand::End)
    } else {
        source(verb, words)
    }
}

/// Parses `steps N`, or nothing.
#[tactic(auto, unfolding(crate::specs::Shape::steps_of))]
fn steps(words: &mut Words) -> Option<Option<u128>>
    ensures { result ≡ steps_of (words_of words.old.rest.now) }
{
    let Some(word) = words.next_word() else {
        return Some(None);
    };
    if !is(word, "steps") {
        return None;
    }
    Some(Some(last_number(words)?))
}

#[tactic(auto, unfolding(crate::specs::Shape::header_of))]
fn header<'a>(words: &mut Words<'a>) -> Option<RawHeader<'a>>
    ensures { option_map view_header result ≡ header_of (words_of words.old.rest.now) }
{
    let name = addresses::name(words.next_word()?)?;
    words.expect_word("seed")?;
    let seed = number(words)?;
    words.expect_word("budget")?;
    let budget = number(words)?;
    let steps = steps(words)?;
    Some(RawHeader {
        name,
        seed,
        budget,
        steps,
    })
}

/// Parses these words as a line, whatever its numbers are.
#[tactic(auto, unfolding(crate::specs::Shape::shape_of))]
pub fn line_shape<'a>(words: &mut Words<'a>) -> Option<RawLine<'a>>
    ensures { option_map view_line result ≡ shape_of (words_of words.old.rest.now) }
{
    let first = words.next_word()?;
    if is(first, "experiment") {
        Some(RawLine::Experiment(header(words)?))
    } else {
        let moment = numbers::moment(first)?;
        let command = command(words)?;
        Some(RawLine::Command(RawTimed { moment, command }))
    }
}

//! Places of a line where one of several words is expected, and each word decides how the line
//! continues.

ghost use Rattle.std.specs.Prelude.{◌≡◌, ◌&&◌};
ghost use Rattle.std.specs.Option.{is_none, is_some};
ghost use Rattle.control_words.specs.Options.{is_time, is_field};
ghost use Rattle.control.specs.Choices.{
  unless,
  verb_chosen,
  action_chosen,
  pipe_chosen,
  setting_chosen,
  field_chosen,
  mask_chosen,
  time_chosen,
  flow_setting_chosen,
  pipe_word_chosen,
  chosen,
  afresh,
};

use crate::expected::{
    Expected, FieldsSeen, FlowSeen, FlowWord, HeaderWord, PacketWord, PipeSeen, PipeWord, RuleWord,
    TimesSeen, TrainWord,
};
use control_words::{bare_discipline, is};

// Returns what is expected after a word that is allowed, or `None` if the word was already given.
fn unless(seen: bool, next: Expected) -> Option<Expected>
    ensures { result ≡ unless seen next }
{
    if seen { None } else { Some(next) }
}

fn verb_chosen(word: &[u8]) -> Option<Expected>
    ensures { result ≡ verb_chosen word.now }
{
    if is(word, "add") {
        Some(Expected::Rule(RuleWord::Number))
    } else if is(word, "delete") {
        Some(Expected::RuleGone)
    } else if is(word, "pipe") {
        Some(Expected::Pipe(PipeWord::What))
    } else if is(word, "show") {
        Some(Expected::End)
    } else if is(word, "one_pass") {
        Some(Expected::OnePass)
    } else if is(word, "trace") {
        Some(Expected::Trace)
    } else if is(word, "end") {
        Some(Expected::End)
    } else if is(word, "inject") {
        Some(Expected::Inject(PacketWord::Protocol))
    } else if is(word, "train") {
        Some(Expected::Train(TrainWord::Number))
    } else if is(word, "flow") {
        Some(Expected::Flow(FlowWord::Number))
    } else if is(word, "stop") {
        Some(Expected::Stopped)
    } else {
        None
    }
}

fn action_chosen(word: &[u8]) -> Option<Expected>
    ensures { result ≡ action_chosen word.now }
{
    if is(word, "allow") || is(word, "deny") || is(word, "count") {
        Some(Expected::Rule(RuleWord::Protocol))
    } else if is(word, "skipto") {
        Some(Expected::Rule(RuleWord::SkipTo))
    } else if is(word, "pipe") {
        Some(Expected::Rule(RuleWord::ToPipe))
    } else {
        None
    }
}

fn pipe_chosen(word: &[u8]) -> Option<Expected>
    ensures { result ≡ pipe_chosen word.now }
{
    if is(word, "show") {
        Some(Expected::End)
    } else if is(word, "delete") {
        Some(Expected::Pipe(PipeWord::Gone))
    } else {
        None
    }
}

// Returns what is expected after an option of a pipe that follows these.
fn setting_chosen(seen: PipeSeen, word: &[u8]) -> Option<Expected>
    ensures { result ≡ setting_chosen seen word.now }
{
    if is(word, "bw") {
        let with = PipeSeen { bw: true, ..seen };
        unless(seen.bw, Expected::Pipe(PipeWord::Bw(with)))
    } else if is(word, "delay") {
        let with = PipeSeen {
            delay: true,
            ..seen
        };
        unless(seen.delay, Expected::Pipe(PipeWord::Delay(with)))
    } else if is(word, "queue") {
        let with = PipeSeen {
            queue: true,
            ..seen
        };
        unless(seen.queue, Expected::Pipe(PipeWord::Queue(with)))
    } else if is(word, "plr") {
        let with = PipeSeen { plr: true, ..seen };
        unless(seen.plr, Expected::Pipe(PipeWord::Plr(with)))
    } else if is(word, "mask") {
        let with = PipeSeen { mask: true, ..seen };
        unless(seen.mask, Expected::Pipe(PipeWord::Mask(with)))
    } else if is(word, "codel") {
        let with = PipeSeen {
            discipline: true,
            ..seen
        };
        unless(
            seen.discipline,
            Expected::Pipe(PipeWord::Times(with, TimesSeen::none())),
        )
    } else if bare_discipline(word).is_some() {
        let with = PipeSeen {
            discipline: true,
            ..seen
        };
        unless(seen.discipline, Expected::Pipe(PipeWord::Setting(with)))
    } else {
        None
    }
}

// Returns what is expected after a field of a mask that follows these.
fn field_chosen(seen: PipeSeen, fields: FieldsSeen, word: &[u8]) -> Option<Expected>
    ensures { result ≡ field_chosen seen fields word.now }
{
    if is(word, "src-ip") {
        let with = FieldsSeen {
            src_ip: true,
            ..fields
        };
        unless(
            fields.src_ip,
            Expected::Pipe(PipeWord::AddressBits(seen, with)),
        )
    } else if is(word, "dst-ip") {
        let with = FieldsSeen {
            dst_ip: true,
            ..fields
        };
        unless(
            fields.dst_ip,
            Expected::Pipe(PipeWord::AddressBits(seen, with)),
        )
    } else if is(word, "src-port") {
        let with = FieldsSeen {
            src_port: true,
            ..fields
        };
        unless(
            fields.src_port,
            Expected::Pipe(PipeWord::PortBits(seen, with)),
        )
    } else if is(word, "dst-port") {
        let with = FieldsSeen {
            dst_port: true,
            ..fields
        };
        unless(
            fields.dst_port,
            Expected::Pipe(PipeWord::PortBits(seen, with)),
        )
    } else if is(word, "proto") {
        let with = FieldsSeen {
            proto: true,
            ..fields
        };
        unless(
            fields.proto,
            Expected::Pipe(PipeWord::ProtocolBits(seen, with)),
        )
    } else {
        None
    }
}

fn mask_chosen(seen: PipeSeen, word: &[u8]) -> Option<Expected>
    ensures { result ≡ mask_chosen seen word.now }
{
    if is(word, "all") {
        return Some(Expected::Pipe(PipeWord::Setting(seen)));
    }
    field_chosen(seen, FieldsSeen::none(), word)
}

// Returns what is expected after a time of CoDel that follows these.
fn time_chosen(seen: PipeSeen, times: TimesSeen, word: &[u8]) -> Option<Expected>
    ensures { result ≡ time_chosen seen times word.now }
{
    if is(word, "target") {
        let with = TimesSeen {
            target: true,
            ..times
        };
        unless(times.target, Expected::Pipe(PipeWord::Time(seen, with)))
    } else if is(word, "interval") {
        let with = TimesSeen {
            interval: true,
            ..times
        };
        unless(times.interval, Expected::Pipe(PipeWord::Time(seen, with)))
    } else {
        None
    }
}

// Returns true if the word is a field of a mask.
#[tactic(auto, unfolding(control_words::specs::Options::is_field))]
fn is_field(word: &[u8]) -> bool
    ensures { result ≡ is_field word.now }
{
    is(word, "src-ip")
        || is(word, "dst-ip")
        || is(word, "src-port")
        || is(word, "dst-port")
        || is(word, "proto")
}

// Returns true if the word is a time of CoDel.
#[tactic(auto, unfolding(control_words::specs::Options::is_time))]
fn is_time(word: &[u8]) -> bool
    ensures { result ≡ is_time word.now }
{
    is(word, "target") || is(word, "interval")
}

fn pipe_word_chosen(place: PipeWord, word: &[u8]) -> Option<Expected>
    ensures { result ≡ pipe_word_chosen place word.now }
{
    match place {
        PipeWord::What => pipe_chosen(word),
        PipeWord::Setting(seen) => setting_chosen(seen, word),
        PipeWord::Mask(seen) => mask_chosen(seen, word),
        PipeWord::Fields(seen, fields) if is_field(word) => field_chosen(seen, fields, word),
        PipeWord::Fields(seen, _) => setting_chosen(seen, word),
        PipeWord::Times(seen, times) if is_time(word) => time_chosen(seen, times, word),
        PipeWord::Times(seen, _) => setting_chosen(seen, word),
        _ => None,
    }
}

// Returns what is expected after an option of a flow that follows these.
fn flow_setting_chosen(seen: FlowSeen, word: &[u8]) -> Option<Expected>
    ensures { result ≡ flow_setting_chosen seen word.now }
{
    if is(word, "ssthresh") {
        let with = FlowSeen {
            ssthresh: true,
            ..seen
        };
        unless(seen.ssthresh, Expected::Flow(FlowWord::Ssthresh(with)))
    } else if is(word, "window") {
        let with = FlowSeen {
            window: true,
            ..seen
        };
        unless(seen.window, Expected::Flow(FlowWord::Window(with)))
    } else if is(word, "rto") {
        let with = FlowSeen {
            timing: true,
            ..seen
        };
        unless(seen.timing, Expected::Flow(FlowWord::Timing(with)))
    } else {
        None
    }
}

/// Returns what is expected after this word, if it is one of several that decide how the line
/// continues. Our choice.
pub fn choice_of(expected: Expected, word: &[u8]) -> Option<Expected>
    ensures { result ≡ chosen expected word.now }
{
    match expected {
        Expected::First if is(word, "experiment") => Some(Expected::Header(HeaderWord::Name)),
        Expected::Verb => verb_chosen(word),
        Expected::Rule(RuleWord::Action) => action_chosen(word),
        Expected::Rule(RuleWord::SourcePorts) if is(word, "to") => {
            Some(Expected::Rule(RuleWord::Destination))
        }
        Expected::Pipe(place) => pipe_word_chosen(place, word),
        Expected::Flow(FlowWord::Setting(seen)) => flow_setting_chosen(seen, word),
        _ => None,
    }
}

// Returns the same place as if no option had been given before it.
fn without_options(expected: Expected) -> Expected
    ensures { result ≡ afresh expected }
{
    match expected {
        Expected::Pipe(PipeWord::Setting(_)) => {
            Expected::Pipe(PipeWord::Setting(PipeSeen::none()))
        }
        Expected::Pipe(PipeWord::Fields(_, _)) => {
            Expected::Pipe(PipeWord::Fields(PipeSeen::none(), FieldsSeen::none()))
        }
        Expected::Pipe(PipeWord::Times(_, _)) => {
            Expected::Pipe(PipeWord::Times(PipeSeen::none(), TimesSeen::none()))
        }
        Expected::Flow(FlowWord::Setting(_)) => {
            Expected::Flow(FlowWord::Setting(FlowSeen::none()))
        }
        other => other,
    }
}

/// Returns true if the word would be allowed there if no option had been given before, which means
/// that it is a repeated option. Our choice.
pub fn stood_before(expected: Expected, word: &[u8]) -> bool
    ensures { result
        ≡ (is_none (chosen expected word.now) && is_some (chosen (afresh expected) word.now)) }
{
    choice_of(expected, word).is_none() && choice_of(without_options(expected), word).is_some()
}

//! The values and keywords at a place of a line.

ghost use Rattle.std.specs.Prelude.{◌≡◌};
ghost use Rattle.control.specs.Values.{
  header_value,
  rule_value,
  ends_form,
  ends_next,
  packet_form,
  packet_next,
  inject_next,
  train_next,
  train_value,
  flow_next,
  flow_value,
  pipe_value,
  value_at,
};

use crate::expected::{
    EndsWord, Expected, FlowSeen, FlowWord, HeaderWord, PacketWord, PipeSeen, PipeWord, RuleWord,
    TrainWord,
};
use crate::form::{Form, Keyword};

/// A word of a form, and what is expected after it.
#[derive(Clone, Copy)]
pub struct Value {
    pub form: Form,
    pub next: Expected,
}

fn header_value(word: HeaderWord) -> Value
    ensures { result ≡ header_value word }
{
    let (form, next) = match word {
        HeaderWord::Name => (Form::Name, Expected::Header(HeaderWord::SeedWord)),
        HeaderWord::SeedWord => (
            Form::Word(Keyword::Seed),
            Expected::Header(HeaderWord::Seed),
        ),
        HeaderWord::Seed => (
            Form::Number(0, u64::MAX),
            Expected::Header(HeaderWord::BudgetWord),
        ),
        HeaderWord::BudgetWord => (
            Form::Word(Keyword::Budget),
            Expected::Header(HeaderWord::Budget),
        ),
        HeaderWord::Budget => (
            Form::Number(1, 65_535),
            Expected::Header(HeaderWord::StepsWord),
        ),
        HeaderWord::StepsWord => (
            Form::Word(Keyword::Steps),
            Expected::Header(HeaderWord::Steps),
        ),
        HeaderWord::Steps => (Form::Number(1, 10_000_000), Expected::End),
    };
    Value { form, next }
}

fn rule_value(word: RuleWord) -> Option<Value>
    ensures { result ≡ rule_value word }
{
    let (form, next) = match word {
        RuleWord::Action => return None,
        RuleWord::Number => (Form::Number(0, 99_999), Expected::Rule(RuleWord::Action)),
        RuleWord::SkipTo => (Form::Number(0, 99_999), Expected::Rule(RuleWord::Protocol)),
        RuleWord::ToPipe => (Form::Number(1, 65_535), Expected::Rule(RuleWord::Protocol)),
        RuleWord::Protocol => (Form::ProtocolMatch, Expected::Rule(RuleWord::From)),
        RuleWord::From => (Form::Word(Keyword::From), Expected::Rule(RuleWord::Source)),
        RuleWord::Source => (Form::Prefix, Expected::Rule(RuleWord::SourcePorts)),
        RuleWord::SourcePorts => (Form::Ports, Expected::Rule(RuleWord::To)),
        RuleWord::To => (
            Form::Word(Keyword::To),
            Expected::Rule(RuleWord::Destination),
        ),
        RuleWord::Destination => (Form::Prefix, Expected::Rule(RuleWord::LastPorts)),
        RuleWord::LastPorts => (Form::Ports, Expected::End),
    };
    Some(Value { form, next })
}

fn ends_form(word: EndsWord) -> Form
    ensures { result ≡ ends_form word }
{
    match word {
        EndsWord::Source | EndsWord::Destination => Form::Address,
        EndsWord::SourcePort | EndsWord::DestinationPort => Form::Number(0, 65_535),
    }
}

fn ends_next(word: EndsWord) -> Option<EndsWord>
    ensures { result ≡ ends_next word }
{
    match word {
        EndsWord::Source => Some(EndsWord::SourcePort),
        EndsWord::SourcePort => Some(EndsWord::Destination),
        EndsWord::Destination => Some(EndsWord::DestinationPort),
        EndsWord::DestinationPort => None,
    }
}

fn packet_form(word: PacketWord) -> Form
    ensures { result ≡ packet_form word }
{
    match word {
        PacketWord::Protocol => Form::Protocol,
        PacketWord::Ends(word) => ends_form(word),
        PacketWord::Size => Form::Number(40, 1500),
    }
}

fn packet_next(word: PacketWord) -> Option<PacketWord>
    ensures { result ≡ packet_next word }
{
    match word {
        PacketWord::Protocol => Some(PacketWord::Ends(EndsWord::Source)),
        PacketWord::Ends(word) => match ends_next(word) {
            Some(next) => Some(PacketWord::Ends(next)),
            None => Some(PacketWord::Size),
        },
        PacketWord::Size => None,
    }
}

fn inject_next(next: Option<PacketWord>) -> Expected
    ensures { result ≡ inject_next next }
{
    match next {
        Some(word) => Expected::Inject(word),
        None => Expected::End,
    }
}

fn train_next(next: Option<PacketWord>) -> Expected
    ensures { result ≡ train_next next }
{
    match next {
        Some(word) => Expected::Train(TrainWord::Packet(word)),
        None => Expected::Train(TrainWord::CountWord),
    }
}

fn train_value(word: TrainWord) -> Value
    ensures { result ≡ train_value word }
{
    let (form, next) = match word {
        TrainWord::Number => (
            Form::Number(1, 65_535),
            Expected::Train(TrainWord::Packet(PacketWord::Protocol)),
        ),
        TrainWord::Packet(word) => (packet_form(word), train_next(packet_next(word))),
        TrainWord::CountWord => (
            Form::Word(Keyword::Count),
            Expected::Train(TrainWord::Count),
        ),
        TrainWord::Count => (
            Form::Number(1, 1_000_000),
            Expected::Train(TrainWord::GapWord),
        ),
        TrainWord::GapWord => (Form::Word(Keyword::Gap), Expected::Train(TrainWord::Gap)),
        TrainWord::Gap => (Form::Number(0, 1_000_000_000_000), Expected::End),
    };
    Value { form, next }
}

fn flow_next(next: Option<EndsWord>) -> Expected
    ensures { result ≡ flow_next next }
{
    match next {
        Some(word) => Expected::Flow(FlowWord::Ends(word)),
        None => Expected::Flow(FlowWord::SmssWord),
    }
}

fn flow_value(word: FlowWord) -> Option<Value>
    ensures { result ≡ flow_value word }
{
    let (form, next) = match word {
        FlowWord::Number => (
            Form::Number(1, 65_535),
            Expected::Flow(FlowWord::Ends(EndsWord::Source)),
        ),
        FlowWord::Ends(word) => (ends_form(word), flow_next(ends_next(word))),
        FlowWord::SmssWord => (Form::Word(Keyword::Smss), Expected::Flow(FlowWord::Smss)),
        FlowWord::Smss => (Form::Segment, Expected::Flow(FlowWord::SegmentsWord)),
        FlowWord::SegmentsWord => (
            Form::Word(Keyword::Segments),
            Expected::Flow(FlowWord::Segments),
        ),
        FlowWord::Segments => (
            Form::Number(1, 1_000_000),
            Expected::Flow(FlowWord::Setting(FlowSeen::none())),
        ),
        FlowWord::Setting(_) => return None,
        FlowWord::Ssthresh(seen) => (
            Form::Number(1, 1_000_000_000),
            Expected::Flow(FlowWord::Setting(seen)),
        ),
        FlowWord::Window(seen) => (Form::Window, Expected::Flow(FlowWord::Setting(seen))),
        FlowWord::Timing(seen) => (Form::Timing, Expected::Flow(FlowWord::Setting(seen))),
    };
    Some(Value { form, next })
}

fn pipe_value(word: PipeWord) -> Option<Value>
    ensures { result ≡ pipe_value word }
{
    let (form, next) = match word {
        PipeWord::What => (Form::Number(1, 65_535), Expected::Pipe(PipeWord::Config)),
        PipeWord::Gone => (Form::Number(1, 65_535), Expected::End),
        PipeWord::Config => (
            Form::Word(Keyword::Config),
            Expected::Pipe(PipeWord::Setting(PipeSeen::none())),
        ),
        PipeWord::Setting(_) | PipeWord::Mask(_) | PipeWord::Fields(_, _) | PipeWord::Times(_, _) =>
            return None,
        PipeWord::Bw(seen) => (Form::Rate, Expected::Pipe(PipeWord::Setting(seen))),
        PipeWord::Delay(seen) => (Form::Delay, Expected::Pipe(PipeWord::Setting(seen))),
        PipeWord::Queue(seen) => (Form::Queue, Expected::Pipe(PipeWord::Setting(seen))),
        PipeWord::Plr(seen) => (Form::Fraction, Expected::Pipe(PipeWord::Setting(seen))),
        PipeWord::AddressBits(seen, fields) => {
            (Form::Field8, Expected::Pipe(PipeWord::Fields(seen, fields)))
        }
        PipeWord::PortBits(seen, fields) => {
            (Form::Field4, Expected::Pipe(PipeWord::Fields(seen, fields)))
        }
        PipeWord::ProtocolBits(seen, fields) => {
            (Form::Field2, Expected::Pipe(PipeWord::Fields(seen, fields)))
        }
        PipeWord::Time(seen, times) => {
            (Form::Time, Expected::Pipe(PipeWord::Times(seen, times)))
        }
    };
    Some(Value { form, next })
}

/// Returns the value or keyword that is allowed at a place, and what is expected after it. Returns
/// `None` if only one of several words, or nothing, is allowed there. Our choice.
pub fn value_at(expected: Expected) -> Option<Value>
    ensures { result ≡ value_at expected }
{
    match expected {
        Expected::First => Some(Value {
            form: Form::Moment,
            next: Expected::Verb,
        }),
        Expected::Header(word) => Some(header_value(word)),
        Expected::Verb | Expected::End => None,
        Expected::Rule(word) => rule_value(word),
        Expected::RuleGone => Some(Value {
            form: Form::Number(0, 99_999),
            next: Expected::End,
        }),
        Expected::Pipe(word) => pipe_value(word),
        Expected::Inject(word) => Some(Value {
            form: packet_form(word),
            next: inject_next(packet_next(word)),
        }),
        Expected::Train(word) => Some(train_value(word)),
        Expected::Flow(word) => flow_value(word),
        Expected::Stopped => Some(Value {
            form: Form::Number(1, 65_535),
            next: Expected::End,
        }),
        Expected::OnePass | Expected::Trace => Some(Value {
            form: Form::Number(0, 1),
            next: Expected::End,
        }),
    }
}

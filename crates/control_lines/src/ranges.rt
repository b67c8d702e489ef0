//! The numbers of a line within their ranges.

ghost use Rattle.std.specs.Prelude.{◌≡◌};
ghost use Rattle.control_lines.specs.Shape.{view_header};
ghost use Rattle.control_lines.specs.Ranges.{
  within,
  address_within,
  prefix_within,
  span_within,
  ports_within,
  action_within,
  rule_within,
  queue_within,
  fields_within,
  mask_within,
  codel_within,
  bare_within,
  discipline_within,
  config_within,
  send_within,
  train_within,
  timing_within,
  flow_spec_within,
  flow_within,
  command_within,
  timed_within,
  spec_within,
};

use crate::raw::{RawAction, RawCommand, RawFlow, RawHeader, RawRule, RawSend, RawTimed, RawTrain};
use control_words::{
    BareDiscipline, RawAddress, RawCodel, RawConfig, RawDiscipline, RawFields, RawMask, RawPorts,
    RawPrefix, RawQueue, RawTiming,
};
use emu_model::{
    Action, Budget, Command, Discipline, FlowSpec, KByteLimit, LATEST_MOMENT, Mask, PipeConfig,
    PortRange, Prefix, QueueLimit, RangedU8, RangedU16, RangedU32, RangedU64, Rule, SendSpec,
    SlotLimit, Spec, Timed, Timeout, Timing, TrainSpec,
};

fn in_range(number: u128, low: u64, high: u64) -> Option<u64>
    ensures { result ≡ within number low high }
{
    if u128::from(low) <= number && number <= u128::from(high) {
        Some(number as u64)
    } else {
        None
    }
}

fn in_u8<const LOW: u8, const HIGH: u8>(number: u128) -> Option<RangedU8<LOW, HIGH>>
    ensures { result ≡ within number LOW HIGH }
{
    let n = in_range(number, u64::from(LOW), u64::from(HIGH))?;
    RangedU8::new(n as u8)
}

fn in_u16<const LOW: u16, const HIGH: u16>(number: u128) -> Option<RangedU16<LOW, HIGH>>
    ensures { result ≡ within number LOW HIGH }
{
    let n = in_range(number, u64::from(LOW), u64::from(HIGH))?;
    RangedU16::new(n as u16)
}

fn in_u32<const LOW: u32, const HIGH: u32>(number: u128) -> Option<RangedU32<LOW, HIGH>>
    ensures { result ≡ within number LOW HIGH }
{
    let n = in_range(number, u64::from(LOW), u64::from(HIGH))?;
    RangedU32::new(n as u32)
}

fn in_u64<const LOW: u64, const HIGH: u64>(number: u128) -> Option<RangedU64<LOW, HIGH>>
    ensures { result ≡ within number LOW HIGH }
{
    let n = in_range(number, LOW, HIGH)?;
    RangedU64::new(n)
}

fn port(number: u128) -> Option<u16>
    ensures { result ≡ within number 0 65535 }
{
    let n = in_range(number, 0, 65_535)?;
    Some(n as u16)
}

#[tactic(auto, unfolding(crate::specs::Ranges::address_within))]
fn address(raw: RawAddress) -> Option<u32>
    ensures { result ≡ address_within raw }
{
    let first = in_range(raw.first, 0, 255)?;
    let second = in_range(raw.second, 0, 255)?;
    let third = in_range(raw.third, 0, 255)?;
    let fourth = in_range(raw.fourth, 0, 255)?;
    Some((((first * 256 + second) * 256 + third) * 256 + fourth) as u32)
}

#[tactic(auto, unfolding(crate::specs::Ranges::prefix_within))]
fn prefix(raw: RawPrefix) -> Option<Prefix>
    ensures { result ≡ prefix_within raw }
{
    let address = address(raw.address)?;
    let length = in_u8::<0, 32>(raw.length)?;
    Some(Prefix::new(address, length))
}

#[tactic(auto, unfolding(crate::specs::Ranges::span_within))]
fn span(raw: RawPorts) -> Option<PortRange>
    ensures { result ≡ span_within raw }
{
    let first = port(raw.first)?;
    let last = port(raw.last)?;
    PortRange::new(first, last)
}

fn ports(raw: Option<RawPorts>) -> Option<Option<PortRange>>
    ensures { result ≡ ports_within raw }
{
    match raw {
        None => Some(None),
        Some(ports) => Some(Some(span(ports)?)),
    }
}

#[tactic(auto, unfolding(crate::specs::Ranges::action_within))]
fn action(raw: RawAction) -> Option<Action>
    ensures { result ≡ action_within raw }
{
    match raw {
        RawAction::Allow => Some(Action::Allow),
        RawAction::Deny => Some(Action::Deny),
        RawAction::Count => Some(Action::Count),
        RawAction::SkipTo(rule) => Some(Action::SkipTo(in_u32::<0, 99999>(rule)?)),
        RawAction::Pipe(pipe) => Some(Action::Pipe(in_u16::<1, 65535>(pipe)?)),
    }
}

#[tactic(auto, unfolding(crate::specs::Ranges::rule_within))]
fn rule(raw: RawRule) -> Option<Rule>
    ensures { result ≡ rule_within raw }
{
    let number = in_u32::<0, 99999>(raw.number)?;
    let action = action(raw.action)?;
    let src = prefix(raw.src)?;
    let sports = ports(raw.sports)?;
    let dst = prefix(raw.dst)?;
    let dports = ports(raw.dports)?;
    Some(Rule {
        number,
        action,
        proto: raw.proto,
        src,
        sports,
        dst,
        dports,
    })
}

#[tactic(auto, unfolding(crate::specs::Ranges::queue_within))]
fn queue(raw: Option<RawQueue>) -> Option<QueueLimit>
    ensures { result ≡ queue_within raw }
{
    match raw {
        None => Some(QueueLimit::Slots(in_u16::<1, 1000>(50)?)),
        Some(RawQueue::Slots(slots)) => Some(QueueLimit::Slots(in_u16::<1, 1000>(slots)?)),
        Some(RawQueue::KBytes(kilobytes)) => Some(QueueLimit::KBytes(in_u16::<1, 1024>(
            kilobytes,
        )?)),
    }
}

#[tactic(auto, unfolding(crate::specs::Ranges::fields_within))]
fn fields(raw: RawFields) -> Option<Mask>
    ensures { result ≡ fields_within raw }
{
    let proto = in_range(raw.proto.unwrap_or(0), 0, 255)?;
    let src = in_range(raw.src_ip.unwrap_or(0), 0, 4_294_967_295)?;
    let dst = in_range(raw.dst_ip.unwrap_or(0), 0, 4_294_967_295)?;
    let sport = port(raw.src_port.unwrap_or(0))?;
    let dport = port(raw.dst_port.unwrap_or(0))?;
    Some(Mask {
        proto: proto as u8,
        src: src as u32,
        dst: dst as u32,
        sport,
        dport,
    })
}

#[tactic(auto, unfolding(crate::specs::Ranges::mask_within))]
fn mask(raw: Option<RawMask>) -> Option<Mask>
    ensures { result ≡ mask_within raw }
{
    match raw {
        None => Some(Mask {
            proto: 0,
            src: 0,
            dst: 0,
            sport: 0,
            dport: 0,
        }),
        Some(RawMask::Everything) => Some(Mask {
            proto: 255,
            src: 4_294_967_295,
            dst: 4_294_967_295,
            sport: 65_535,
            dport: 65_535,
        }),
        Some(RawMask::Fields(raw_fields)) => fields(raw_fields),
    }
}

#[tactic(auto, unfolding(crate::specs::Ranges::codel_within))]
fn codel(raw: RawCodel) -> Option<Discipline>
    ensures { result ≡ codel_within raw }
{
    let target = in_u64::<1000, 60000000000>(raw.target.unwrap_or(5_000_000))?;
    let interval = in_u64::<1000, 60000000000>(raw.interval.unwrap_or(100_000_000))?;
    Some(Discipline::ControlledDelay { target, interval })
}

fn bare_discipline(raw: BareDiscipline) -> Discipline
    ensures { result ≡ bare_within raw }
{
    match raw {
        BareDiscipline::TailDrop => Discipline::TailDrop,
    }
}

#[tactic(auto, unfolding(crate::specs::Ranges::discipline_within))]
fn discipline(raw: Option<RawDiscipline>) -> Option<Discipline>
    ensures { result ≡ discipline_within raw }
{
    match raw {
        None => Some(Discipline::TailDrop),
        Some(RawDiscipline::Bare(bare)) => Some(bare_discipline(bare)),
        Some(RawDiscipline::ControlledDelay(times)) => codel(times),
    }
}

#[tactic(auto, unfolding(crate::specs::Ranges::config_within))]
fn config(raw: RawConfig) -> Option<PipeConfig>
    ensures { result ≡ config_within raw }
{
    let bw = in_u64::<0, 10000000000>(raw.bw.unwrap_or(0))?;
    let delay = in_u16::<0, 60000>(raw.delay.unwrap_or(0))?;
    let queue = queue(raw.queue)?;
    let plr = in_u32::<0, 1000000>(raw.plr.unwrap_or(0))?;
    let mask = mask(raw.mask)?;
    let discipline = discipline(raw.discipline)?;
    Some(PipeConfig {
        bw,
        delay,
        queue,
        plr,
        mask,
        discipline,
    })
}

#[tactic(auto, unfolding(crate::specs::Ranges::send_within))]
fn send(raw: RawSend) -> Option<SendSpec>
    ensures { result ≡ send_within raw }
{
    let src = address(raw.ends.src)?;
    let sport = port(raw.ends.sport)?;
    let dst = address(raw.ends.dst)?;
    let dport = port(raw.ends.dport)?;
    let size = in_u16::<40, 1500>(raw.size)?;
    Some(SendSpec {
        proto: raw.proto,
        src,
        sport,
        dst,
        dport,
        size,
    })
}

#[tactic(auto, unfolding(crate::specs::Ranges::train_within))]
fn train(raw: RawTrain) -> Option<Command>
    ensures { result ≡ train_within raw }
{
    let number = in_u16::<1, 65535>(raw.number)?;
    let packet = send(raw.packet)?;
    let count = in_u32::<1, 1000000>(raw.count)?;
    let gap = in_u64::<0, 1000000000000>(raw.gap)?;
    let train = TrainSpec { packet, count, gap };
    Some(Command::Train { number, train })
}

#[tactic(auto, unfolding(crate::specs::Ranges::timing_within))]
fn timing(raw: Option<RawTiming>) -> Option<Timing>
    ensures { result ≡ timing_within raw }
{
    match raw {
        None => Some(Timing::Fixed(in_u16::<1, 60000>(1000)?)),
        Some(RawTiming::Adaptive) => Some(Timing::Adaptive),
        Some(RawTiming::Fixed(milliseconds)) => Some(Timing::Fixed(in_u16::<1, 60000>(
            milliseconds,
        )?)),
    }
}

#[tactic(auto, unfolding(crate::specs::Ranges::flow_spec_within))]
fn flow_spec(raw: RawFlow) -> Option<FlowSpec>
    ensures { result ≡ flow_spec_within raw }
{
    let src = address(raw.ends.src)?;
    let sport = port(raw.ends.sport)?;
    let dst = address(raw.ends.dst)?;
    let dport = port(raw.ends.dport)?;
    let smss = in_u16::<64, 1460>(raw.smss)?;
    let segments = in_u32::<1, 1000000>(raw.segments)?;
    let ssthresh = in_u32::<1, 1000000000>(raw.options.ssthresh.unwrap_or(65_535))?;
    let rwnd = in_u16::<1, 65535>(raw.options.window.unwrap_or(65_535))?;
    let timing = timing(raw.options.timing)?;
    Some(FlowSpec {
        src,
        sport,
        dst,
        dport,
        smss,
        segments,
        ssthresh,
        rwnd,
        timing,
    })
}

#[tactic(auto, unfolding(crate::specs::Ranges::flow_within))]
fn flow(raw: RawFlow) -> Option<Command>
    ensures { result ≡ flow_within raw }
{
    let number = in_u16::<1, 65535>(raw.number)?;
    let flow = flow_spec(raw)?;
    Some(Command::Flow { number, flow })
}

#[tactic(auto, unfolding(crate::specs::Ranges::command_within))]
fn command(raw: RawCommand) -> Option<Command>
    ensures { result ≡ command_within raw }
{
    match raw {
        RawCommand::Add(written) => Some(Command::Add(rule(written)?)),
        RawCommand::Delete(number) => Some(Command::Delete(in_u32::<0, 99999>(number)?)),
        RawCommand::Config(number, options) => {
            let pipe = in_u16::<1, 65535>(number)?;
            let config = config(options)?;
            Some(Command::Config { pipe, config })
        }
        RawCommand::PipeDelete(number) => Some(Command::PipeDelete(in_u16::<1, 65535>(number)?)),
        RawCommand::PipeShow => Some(Command::PipeShow),
        RawCommand::Show => Some(Command::Show),
        RawCommand::Inject(written) => Some(Command::Inject(send(written)?)),
        RawCommand::Train(written) => train(written),
        RawCommand::Flow(written) => flow(written),
        RawCommand::Stop(number) => Some(Command::Stop(in_u16::<1, 65535>(number)?)),
        RawCommand::OnePass(number) => Some(Command::OnePass(in_range(number, 0, 1)? == 1)),
        RawCommand::Trace(number) => Some(Command::Trace(in_range(number, 0, 1)? == 1)),
        RawCommand::End => Some(Command::End),
    }
}

/// Returns the command of a line with its time (ns), or `None` if a number is out of its range (our
/// choice: at most 10^15 ns, and the ranges of docs/reference/scenario.md).
#[tactic(auto, unfolding(crate::specs::Ranges::timed_within))]
pub fn timed_command(raw: RawTimed) -> Option<Timed>
    ensures { result ≡ timed_within raw }
{
    let moment = in_range(raw.moment, 0, LATEST_MOMENT)?;
    let command = command(raw.command)?;
    Some(Timed { moment, command })
}

/// Returns the seed and the budget of an experiment, or `None` if a number is out of its range.
/// Without `steps` the limit is 1,000,000 steps.
#[tactic(auto, unfolding(crate::specs::Ranges::spec_within))]
pub fn spec(raw: RawHeader) -> Option<Spec>
    ensures { result ≡ spec_within (view_header raw.entry) }
{
    let seed = in_range(raw.seed, 0, u64::MAX)?;
    let packets = in_u16::<1, 65535>(raw.budget)?;
    let steps = in_u32::<1, 10000000>(raw.steps.unwrap_or(1_000_000))?;
    let budget = Budget { packets, steps };
    Some(Spec {
        seed,
        budget,
        traced: false,
    })
}

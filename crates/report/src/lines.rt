//! The lines of a report, each appended to a text (our choice). Times are in ns. If allocation
//! fails, the text is unchanged.

ghost use Rattle.std.specs.Prelude.{◌≡◌, ◌+◌, ◌≤◌, ◌++◌, length, codes, decimal, false, vec_len, vec_capacity, IsOk, OnOk, OnErr};
ghost use Rattle.report.specs.Room.{spare, Appends};
ghost use Rattle.report.specs.Words.{load_of};
ghost use Rattle.std.specs.List.{flat_map};
ghost use Rattle.report.specs.Lines.{spaced, fields_of, line_of, is_common, heading_of, behind_space, counters_of};
ghost use Rattle.emu_model.specs.declared.records.Record.TheVariants.{RuleLine, PipeLine};

use crate::events::{put_drop, put_event, put_parts};
use crate::forward::put_load;
use crate::moments::Moments;
use crate::packed::parts_of;
use crate::pieces::{append, append_labelled, append_number, append_places};
use crate::words::{
    append_action, append_discipline, append_end, append_header, append_instance, append_mask,
    append_protocol, append_queue, refusal_code,
};
use emu_model::{Counters, Load, Mask, PipeConfig, PipeNumber, Record, Rule, SendSpec};
use std::alloc::AllocError;
use unchecked::unreachable_unchecked;

// The maximum length of a line, and of a heading without its name.
const LONGEST_LINE: usize = 400;

fn append_rule(out: &mut Vec<u8>, rule: &Rule, packets: u64, bytes: u64)
    requires { 399 ≤ spare out.old }
    ensures { Appends (spaced (fields_of (RuleLine rule.now packets bytes))) 399 out.old out.new }
{
    append(out, b"rule ");
    append_places(out, 10, 5, rule.number.get());
    append_labelled(out, b" ", packets);
    append_labelled(out, b" ", bytes);
    append(out, b" ");
    append_action(out, rule.action);
    append(out, b" ");
    append_protocol(out, rule.proto);
    append(out, b" from ");
    append_end(out, rule.src, rule.sports);
    append(out, b" to ");
    append_end(out, rule.dst, rule.dports);
}

fn append_pipe(out: &mut Vec<u8>, pipe: PipeNumber, config: &PipeConfig)
    requires { 399 ≤ spare out.old }
    ensures { Appends (spaced (fields_of (PipeLine pipe config.now))) 399 out.old out.new }
{
    append_labelled(out, b"pipe ", u64::from(pipe.get()));
    append_labelled(out, b" bw ", config.bw.get());
    append_labelled(out, b" delay ", u64::from(config.delay.get()));
    append(out, b" queue ");
    append_queue(out, config.queue);
    append_labelled(out, b" plr ", u64::from(config.plr.get()));
    append(out, b" mask ");
    append_mask(out, config.mask);
    append(out, b" ");
    append_discipline(out, config.discipline);
}

// Appends the start of the line of a packet's creation: the time, the packet's number and its load.
fn append_made(out: &mut Vec<u8>, moments: &mut Moments, moment: u64, packet: u64, load: Load)
    requires { 128 ≤ spare out.old }
    ensures { Appends
        (decimal moment
        ++ (codes " make " ++ (decimal packet ++ (codes " " ++ load_of load))))
        128 out.old out.new }
{
    let text = &mut moments.page;
    let end = put_event(&mut moments.clock, text, 0, moment, b" make   ", 6, packet);
    let end = put_load(text, end, load);
    append(out, &moments.page[..end]);
}

// Appends the line of a record that isn't common.
fn append_other(out: &mut Vec<u8>, moments: &mut Moments, line: &Record)
    requires { (400 ≤ spare out.old) × (is_common line.now ≡ false) }
    ensures { Appends (line_of line.now) 400 out.old out.new }
{
    match *line {
        Record::CommandRefused {
            moment,
            command,
            refusal,
        } => {
            append_number(out, moment);
            append_labelled(out, b" refused ", command);
            append_labelled(out, b" ", refusal_code(refusal));
            append(out, b"\n");
        }
        Record::PacketMade {
            moment,
            packet,
            origin,
            proto,
            src,
            sport,
            dst,
            dport,
            size,
        } => {
            let send = SendSpec {
                proto,
                src,
                sport,
                dst,
                dport,
                size,
            };
            append_made(out, moments, moment, packet, origin.load());
            append(out, b" ");
            append_header(out, &send);
            append(out, b"\n");
        }
        Record::InstanceIdentified {
            moment,
            pipe,
            instance,
            proto,
            src,
            dst,
            sport,
            dport,
        } => {
            append_number(out, moment);
            append(out, b" identify ");
            append_instance(out, pipe, instance);
            append(out, b" ");
            let id = Mask {
                proto,
                src,
                dst,
                sport,
                dport,
            };
            append_mask(out, id);
            append(out, b"\n");
        }
        Record::PacketDropped {
            moment,
            packet,
            load,
            cause,
        } => {
            let (clock, text) = (&mut moments.clock, &mut moments.page);
            let end = put_drop(clock, text, 0, moment, packet, load, cause);
            append(out, &moments.page[..end]);
        }
        Record::StepsSpent { moment } => {
            append_number(out, moment);
            append(out, b" spent\n");
        }
        Record::RuleLine {
            rule,
            packets,
            bytes,
        } => {
            append_rule(out, &rule, packets, bytes);
            append(out, b"\n");
        }
        Record::PipeLine { pipe, config } => {
            append_pipe(out, pipe, &config);
            append(out, b"\n");
        }
        Record::InstanceLine {
            pipe,
            instance,
            waiting,
            bytes,
            busy,
            in_flight,
            drawn,
        } => {
            append(out, b"instance ");
            append_instance(out, pipe, instance);
            append_labelled(out, b" waiting ", waiting);
            append_labelled(out, b" bytes ", bytes);
            append_labelled(out, b" busy ", u64::from(busy));
            append_labelled(out, b" flight ", in_flight);
            append_labelled(out, b" drawn ", drawn);
            append(out, b"\n");
        }
        _ => unreachable_unchecked!(),
    }
}

// Appends the line of a record.
fn append_line(out: &mut Vec<u8>, moments: &mut Moments, line: &Record)
    requires { 400 ≤ spare out.old }
    ensures { Appends (line_of line.now) 400 out.old out.new }
{
    let Some(parts) = parts_of(line) else {
        return append_other(out, moments, line);
    };
    let Some(end) = put_parts::<Moments>(&mut moments.clock, &mut moments.page, 0, parts) else {
        unreachable_unchecked!()
    };
    append(out, &moments.page[..end]);
}

/// Appends the line of one record. After `AllocError` the text is unchanged. The cache in `moments`
/// doesn't change the text: passing it on to the next line makes that line cheaper.
#[tactic(auto, unfolding(crate::specs::Room::spare))]
pub fn write_record(
    out: &mut Vec<u8>,
    moments: &mut Moments,
    line: &Record,
) -> Result<(), AllocError>
    ensures ok { OnOk result (out.new.items ≡ out.old.items ++ line_of line.now) }
    ensures err { OnErr result (out.new.items ≡ out.old.items) }
    ensures room { OnOk result (spare out.old ≤ spare out.new + 400) }
    ensures capacity { vec_capacity out.old ≤ vec_capacity out.new }
    ensures succeeds { vec_len out.old + 400 ≤ vec_capacity out.old → IsOk result }
{
    out.reserve(LONGEST_LINE)?;
    append_line(out, moments, line);
    Ok(())
}

/// Appends the line with an experiment's name, the first of its report. After `AllocError` the text
/// is unchanged.
#[tactic(auto, unfolding(crate::specs::Room::spare))]
pub fn write_heading(out: &mut Vec<u8>, name: &[u8]) -> Result<(), AllocError>
    ensures ok { OnOk result (out.new.items ≡ out.old.items ++ heading_of name.now) }
    ensures err { OnErr result (out.new.items ≡ out.old.items) }
    ensures capacity { vec_capacity out.old ≤ vec_capacity out.new }
    ensures succeeds { vec_len out.old + (400 + length name.now) ≤ vec_capacity out.old →
        IsOk result }
{
    out.reserve(LONGEST_LINE + name.len())?;
    append(out, b"experiment ");
    append(out, name);
    append(out, b"\n");
    Ok(())
}

fn append_drops(out: &mut Vec<u8>, drops: &[u64; 8])
    requires { 168 ≤ spare out.old }
    ensures { Appends (flat_map behind_space drops.now) 168 out.old out.new }
{
    for dropped in drops {
        append_labelled(out, b" ", *dropped);
    }
}

/// Appends the line of the counters, the last of a report. After `AllocError` the text is
/// unchanged.
#[tactic(auto, unfolding(crate::specs::Room::spare))]
pub fn write_counters(out: &mut Vec<u8>, counters: &Counters) -> Result<(), AllocError>
    ensures ok { OnOk result (out.new.items ≡ out.old.items ++ counters_of counters.now) }
    ensures err { OnErr result (out.new.items ≡ out.old.items) }
    ensures capacity { vec_capacity out.old ≤ vec_capacity out.new }
    ensures succeeds { vec_len out.old + 400 ≤ vec_capacity out.old → IsOk result }
{
    out.reserve(LONGEST_LINE)?;
    append_labelled(out, b"counters ", counters.made);
    append_labelled(out, b" ", counters.delivered);
    append_labelled(out, b" ", counters.held);
    append_drops(out, &counters.drops);
    append(out, b"\n");
    Ok(())
}

//! The facts in the records about each flow: what its sender has received, and for how long its
//! window limited it.

ghost use Rattle.std.specs.Prelude.{◌≡◌, ◌==◌, ℕ, ◌<◌, ◌≤◌, Some, None, IfOk, OnOk, if◌then◌else◌, length, slice_get, slice_index_or, option_map};
ghost use Rattle.emu_model.specs.Reno.{initial_window};
ghost use Rattle.explain.specs.Watch.{at_flow, heard, is_held, timed, new_watch, stopped, watched, watched_by, watched_by_command, watched_by_done};

use emu_model::{Command, FlowNumber, FlowSpec, Load, Record, Timed};
use report::{Archive, Source};
use std::alloc::{AllocError, Global};

/// A flow of an experiment: the number of its command (from 0), the command's values for the
/// segments and the receiver's window, and what the records show of the flow.
#[derive(Clone, Copy, Debug, PartialEq)]
pub struct Watch {
    pub command: u64,
    pub smss: u64,
    pub segments: u64,
    pub window: u64,
    /// The times (ns) at which the flow began, and at which its sender last received an
    /// acknowledgement or its timer expired.
    pub begin: u64,
    pub last: u64,
    /// True if cwnd has allowed more segments than the receiver's window since then.
    pub is_held: bool,
    /// How long that was so before (ns).
    pub held: u64,
    /// The number of bytes that are acknowledged.
    pub acked: u64,
    /// True if a command has stopped the flow.
    pub is_stopped: bool,
}

fn initial_window(smss: u64) -> u64
    requires { smss ≤ 1460 }
    ensures { result ≡ initial_window smss }
{
    if smss <= 1095 { 4 * smss } else { 3 * smss }
}

fn new_watch(command: u64, moment: u64, flow: &FlowSpec) -> Watch
    ensures { result ≡ new_watch command moment flow.now }
{
    let smss = u64::from(flow.smss.get());
    let window = u64::from(flow.rwnd.get());
    Watch {
        command,
        smss,
        segments: u64::from(flow.segments.get()),
        window,
        begin: moment,
        last: moment,
        is_held: is_held(window, smss, initial_window(smss)),
        held: 0,
        acked: 0,
        is_stopped: false,
    }
}

// Returns true if the window, and not cwnd, limits the number of whole segments.
fn is_held(window: u64, smss: u64, cwnd: u64) -> bool
    ensures { result ≡ is_held window smss cwnd }
{
    if smss == 0 {
        return false;
    }
    window / smss < cwnd / smss
}

impl Watch {
    // Returns the flow after its sender received something at a time, and has this cwnd from then
    // on.
    fn timed(&self, moment: u64, cwnd: u64) -> Watch
        ensures { result ≡ timed moment cwnd self.now }
    {
        let passed = if self.is_held {
            moment.saturating_sub(self.last)
        } else {
            0
        };
        Watch {
            last: moment,
            is_held: is_held(self.window, self.smss, cwnd),
            held: self.held.saturating_add(passed),
            ..*self
        }
    }

    // Returns the flow after an acknowledgement of all bytes below `upto` has arrived.
    fn heard(&self, upto: u64) -> Watch
        ensures { result ≡ heard upto self.now }
    {
        Watch {
            acked: self.acked.max(upto),
            ..*self
        }
    }

    fn stopped(&self) -> Watch
        ensures { result ≡ stopped self.now }
    {
        Watch {
            is_stopped: true,
            ..*self
        }
    }
}

// Returns the entry for the flow with this number.
fn entry_at(watches: &[Option<Watch>], number: u16) -> Option<Watch>
    ensures { result ≡ slice_index_or watches.now number None }
{
    match watches.get(usize::from(number)) {
        Some(entry) => *entry,
        None => None,
    }
}

// Adds entries up to and including this number.
fn make_room(watches: &mut Vec<Option<Watch>>, number: u16) -> Result<(), AllocError>
    ensures same { (n : ℕ) → slice_index_or watches.new.items n None
        ≡ slice_index_or watches.old.items n None }
    ensures ready { OnOk result (number < length watches.new.items) }
{
    let entries = usize::from(number) + 1;
    if entries <= watches.len() {
        return Ok(());
    }
    watches.resize(entries, None)
}

// Sets the entry for a new flow, and discards that of an earlier flow with its number.
fn put_begin(watches: &mut Vec<Option<Watch>>, number: u16, watch: Watch) -> Result<(), AllocError>
    ensures { OnOk result ((n : ℕ) → slice_index_or watches.new.items n None
        ≡ (if number == n then Some watch else slice_index_or watches.old.items n None)) }
{
    make_room(watches, number)?;
    watches[usize::from(number)] = Some(watch);
    Ok(())
}

// Replaces the entry for a flow, if there is one.
fn put_known(watches: &mut Vec<Option<Watch>>, number: u16, watch: Watch)
    ensures { (n : ℕ) → slice_index_or watches.new.items n None
        ≡ (if number == n then option_map (λ _. watch) (slice_index_or watches.old.items n None)
        else slice_index_or watches.old.items n None) }
{
    if entry_at(watches, number).is_some() {
        watches[usize::from(number)] = Some(watch);
    }
}

fn put_time(watches: &mut Vec<Option<Watch>>, flow: FlowNumber, moment: u64, cwnd: u64)
    ensures { (n : ℕ) → slice_index_or watches.new.items n None
        ≡ at_flow flow n (timed moment cwnd) (slice_index_or watches.old.items n None) }
{
    if let Some(watch) = entry_at(watches, flow.get()) {
        put_known(watches, flow.get(), watch.timed(moment, cwnd));
    }
}

fn put_heard(watches: &mut Vec<Option<Watch>>, flow: FlowNumber, upto: u64)
    ensures { (n : ℕ) → slice_index_or watches.new.items n None
        ≡ at_flow flow n (heard upto) (slice_index_or watches.old.items n None) }
{
    if let Some(watch) = entry_at(watches, flow.get()) {
        put_known(watches, flow.get(), watch.heard(upto));
    }
}

fn put_stop(watches: &mut Vec<Option<Watch>>, flow: FlowNumber)
    ensures { (n : ℕ) → slice_index_or watches.new.items n None
        ≡ at_flow flow n stopped (slice_index_or watches.old.items n None) }
{
    if let Some(watch) = entry_at(watches, flow.get()) {
        put_known(watches, flow.get(), watch.stopped());
    }
}

// Updates the entries for a command that was done. Its number is counted from 0.
fn put_done(
    watches: &mut Vec<Option<Watch>>,
    moment: u64,
    number: u64,
    command: &Command,
) -> Result<(), AllocError>
    ensures { OnOk result ((n : ℕ) → slice_index_or watches.new.items n None
        ≡ watched_by_done n moment number command.now (slice_index_or watches.old.items n None)) }
{
    match command {
        Command::Flow {
            number: flow,
            flow: spec,
        } => put_begin(watches, flow.get(), new_watch(number, moment, spec)),
        Command::Stop(flow) => {
            put_stop(watches, *flow);
            Ok(())
        }
        _ => Ok(()),
    }
}

// Updates the entries for the command with this number, which was done.
fn put_command(
    watches: &mut Vec<Option<Watch>>,
    commands: &[Timed],
    moment: u64,
    number: u64,
) -> Result<(), AllocError>
    ensures { OnOk result ((n : ℕ) → slice_index_or watches.new.items n None
        ≡ watched_by_command n moment number (slice_get commands.now number)
        (slice_index_or watches.old.items n None)) }
{
    match commands.get(number as usize) {
        Some(timed) => put_done(watches, moment, number, &timed.command),
        None => Ok(()),
    }
}

fn put_record(
    watches: &mut Vec<Option<Watch>>,
    commands: &[Timed],
    entry: &Record,
) -> Result<(), AllocError>
    ensures { OnOk result ((n : ℕ) → slice_index_or watches.new.items n None
        ≡ watched_by commands.now n entry.now (slice_index_or watches.old.items n None)) }
{
    match *entry {
        Record::CommandDone { moment, command } => {
            return put_command(watches, commands, moment, command);
        }
        Record::AckTaken {
            moment,
            flow,
            cwnd,
            ..
        }
        | Record::TimerExpired {
            moment,
            flow,
            cwnd,
            ..
        } => put_time(watches, flow, moment, cwnd),
        Record::PacketDelivered {
            load: Load::Ack { flow, upto },
            ..
        } => put_heard(watches, flow, upto),
        _ => {}
    }
    Ok(())
}

/// Returns what the records of an experiment with these commands show about each flow, indexed by
/// its number. Makes one pass, and allocates at most 5 MB. Our choice.
pub fn watch_flows(
    alloc: Global,
    commands: &[Timed],
    records: &Archive,
) -> Result<Vec<Option<Watch>>, AllocError>
    ensures { IfOk result (λ ws. (n : ℕ) → slice_index_or ws.items n None
        ≡ watched commands.now n records.now None) }
{
    let mut watches = Vec::new(alloc);
    let mut reader = records.reader();
    while let Some(entry) = reader.next() {
        put_record(&mut watches, commands, &entry)?;
    }
    Ok(watches)
}

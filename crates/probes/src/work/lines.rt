//! Reports of records like those of a run, and scenarios that are parsed.

use control::parse_scenario;
use emu_model::{Counters, DropCause, FlowNumber, Load, PipeNumber, Record};
use report::report_text;
use std::alloc::{AllocError, Global};

/// The subject of the records.
#[derive(Clone, Copy, Debug, PartialEq)]
pub enum Told {
    Flow,
    Train,
    Drops,
}

// Returns the records of one segment and its acknowledgement, 1.2 ms after the previous one.
fn of_segment(turn: u32, one: PipeNumber, two: PipeNumber, flow: FlowNumber) -> [Record; 5] {
    let moment = turn as u64 * 1_200_000;
    let packet = turn as u64 * 2;
    let first = turn as u64 * 1460;
    let upto = first + 1460;
    [
        Record::PacketFinished {
            moment,
            packet,
            pipe: one,
            instance: 0,
        },
        Record::PacketDelivered {
            moment: moment + 400_000,
            packet,
            load: Load::Seg { flow, first },
        },
        Record::PacketFinished {
            moment: moment + 400_000,
            packet: packet + 1,
            pipe: two,
            instance: 0,
        },
        Record::PacketDelivered {
            moment: moment + 800_000,
            packet: packet + 1,
            load: Load::Ack { flow, upto },
        },
        Record::AckTaken {
            moment: moment + 800_000,
            flow,
            cwnd: 65_535,
            ssthresh: 65_535,
        },
    ]
}

// Returns the records of one packet that is delivered, 8 us after the previous one.
fn of_packet(turn: u32, pipe: PipeNumber) -> [Record; 2] {
    let moment = turn as u64 * 8_000;
    let packet = turn as u64;
    [
        Record::PacketFinished {
            moment,
            packet,
            pipe,
            instance: 0,
        },
        Record::PacketDelivered {
            moment: moment + 4_000,
            packet,
            load: Load::Plain,
        },
    ]
}

// Returns the record of one packet that is dropped, 8 us after the previous one.
fn of_drop(turn: u32) -> [Record; 1] {
    [Record::PacketDropped {
        moment: turn as u64 * 8_000,
        packet: turn as u64,
        load: Load::Plain,
        cause: DropCause::Full,
    }]
}

// Returns records for `count` lines, rounded down to whole turns.
fn records_of(alloc: Global, told: Told, count: u32) -> Result<Vec<Record>, AllocError> {
    let mut records = Vec::new(alloc);
    let (Some(one), Some(two)) = (PipeNumber::new(1), PipeNumber::new(2)) else {
        return Ok(records);
    };
    let Some(flow) = FlowNumber::new(1) else {
        return Ok(records);
    };
    match told {
        Told::Flow => {
            for turn in 0..count / 5 {
                records.extend_from_slice(&of_segment(turn, one, two, flow))?;
            }
        }
        Told::Train => {
            for turn in 0..count / 2 {
                records.extend_from_slice(&of_packet(turn, one))?;
            }
        }
        Told::Drops => {
            for turn in 0..count {
                records.extend_from_slice(&of_drop(turn))?;
            }
        }
    }
    Ok(records)
}

/// Formats a report of `count` lines about a subject `times` times, and returns the number of
/// bytes.
pub fn bytes_of(alloc: Global, told: Told, count: u32, times: u32) -> Result<u64, AllocError> {
    let records = records_of(alloc, told, count)?;
    let counters = Counters {
        made: 0,
        delivered: 0,
        held: 0,
        drops: [0; 8],
    };
    let mut bytes = 0u64;
    for _ in 0..times {
        let text = report_text(alloc, b"work", records.as_slice(), &counters)?;
        bytes = bytes.saturating_add(text.len() as u64);
    }
    Ok(bytes)
}

/// Parses a scenario `times` times, and returns the number of experiments.
pub fn experiments_of(alloc: Global, text: &[u8], times: u32) -> u64 {
    let mut experiments = 0u64;
    for _ in 0..times {
        if let Ok(scenario) = parse_scenario(alloc, text) {
            experiments = experiments.saturating_add(scenario.experiments().len() as u64);
        }
    }
    experiments
}

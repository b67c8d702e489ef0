//! Records of each kind that is counted, with counts computed by hand.

use crate::tests::wants::{assert_record, assert_same};
use emu_model::{DropCause, Load, Record};
use pipe_table::*;
use std::process::Abort;

const CAUSES: [DropCause; 8] = [
    DropCause::Denied,
    DropCause::NoPipe,
    DropCause::NoInstance,
    DropCause::Lost,
    DropCause::Full,
    DropCause::Codel,
    DropCause::Deleted,
    DropCause::Budget,
];

fn delivery_record(packet: u64) -> Record {
    Record::PacketDelivered {
        moment: 7,
        packet,
        load: Load::Plain,
    }
}

fn drop_record(packet: u64, cause: DropCause) -> Record {
    Record::PacketDropped {
        moment: 7,
        packet,
        load: Load::Plain,
        cause,
    }
}

fn notes(rt: &impl Abort, log: &mut RecordLog, entry: &Record) {
    log.reserve(1).expect(rt, "memory");
    log.note(entry);
}

// Adds thirteen records.
fn notes_all(rt: &impl Abort, log: &mut RecordLog) {
    notes(
        rt,
        log,
        &Record::CommandDone {
            moment: 0,
            command: 0,
        },
    );
    notes(rt, log, &delivery_record(1));
    notes(rt, log, &delivery_record(2));
    for cause in &CAUSES {
        notes(rt, log, &drop_record(3, *cause));
    }
    notes(rt, log, &drop_record(4, DropCause::Full));
    notes(rt, log, &Record::StepsSpent { moment: 9 });
}

#[test]
fn counts_go_by_kind_and_cause(rt: HostRuntime) {
    let mut log = RecordLog::new(rt.alloc());
    notes_all(&rt, &mut log);
    assert_same(&rt, log.delivered_count(), 2);
    assert_same(&rt, log.drops(), [1, 1, 1, 1, 2, 1, 1, 1]);
    assert_record(&rt, log.as_slice(), 2, delivery_record(2));
    let records = log.into_vec();
    assert_same(&rt, records.len(), 13);
    assert_record(&rt, &records, 11, drop_record(4, DropCause::Full));
}

// Returns the numbers of records and of delivered packets.
fn counts(log: &RecordLog) -> (usize, u64) {
    (log.as_slice().len(), log.delivered_count())
}

// Checks that nothing is lost if an allocation fails.
fn keeps_its_records(rt: &impl Abort, log: &mut RecordLog) {
    if log.reserve(1).is_err() {
        return assert_same(rt, counts(log), (0, 0));
    }
    log.note(&delivery_record(1));
    if log.reserve(100).is_err() {
        return assert_same(rt, counts(log), (1, 1));
    }
    log.note(&delivery_record(2));
    assert_same(rt, counts(log), (2, 2));
}

#[test]
fn a_refused_growth_keeps_the_records(rt: HostRuntime) {
    let mut log = RecordLog::new(rt.alloc());
    keeps_its_records(&rt, &mut log);
}

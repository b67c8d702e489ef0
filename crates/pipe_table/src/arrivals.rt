//! The trace records of a packet's arrival at a pipe.

ghost use Rattle.std.specs.Prelude.{◌≡◌, ℕ, ◌+◌, ◌≤◌, ◌++◌, []};
ghost use Rattle.std.specs.Option.{option_map_or};
ghost use Rattle.emu_model.specs.FlowIds.{flow_id};
ghost use Rattle.emu_model.specs.Net.{Net, arrivals, find_pipe, identify_record};
ghost use Rattle.packet_store.specs.Pocket.{Pocket};
ghost use Rattle.pipe_core.specs.Keyed.{seen_pipe};
ghost use Rattle.pipe_table.specs.Places.{IsRouted, StandsAt};
ghost use Rattle.pipe_table.specs.Table.{with_pipes};

use crate::{PipeTable, RecordLog};
use emu_model::{Mask, Packet, PipeNumber, Record};
use pipe_core::Pipe;

// Returns the record of the instance that a packet creates.
fn identify_record(pipe: &Pipe, now: u64, instance: u8, packet: &Packet) -> Record
    ensures { result ≡ identify_record now pipe.now.number instance
        (flow_id pipe.now.config.mask packet.now) }
{
    let Mask {
        proto,
        src,
        dst,
        sport,
        dport,
    } = pipe.identifier(packet);
    Record::InstanceIdentified {
        moment: now,
        pipe: pipe.number(),
        instance,
        proto,
        src,
        dst,
        sport,
        dport,
    }
}

// Records a packet's arrival at an instance of a pipe, if there is one for it.
fn note_at(pipe: &Pipe, log: &mut RecordLog, now: u64, packet: &Packet)
    requires { 2 ≤ log.old.spare }
    ensures records { (f : ℕ → Packet) →
        log.new.records ≡ log.old.records ++ arrivals now packet.now (seen_pipe f pipe.now) }
    ensures room { log.old.spare ≤ log.new.spare + 2 }
{
    let Some(instance) = pipe.instance_for(packet) else {
        return;
    };
    let arrived = Record::PacketArrived {
        moment: now,
        packet: packet.number,
        pipe: pipe.number(),
        instance,
    };
    if (instance as usize) < pipe.instances() {
        log.note(&arrived);
        return;
    }
    log.note(&identify_record(pipe, now, instance, packet));
    log.note(&arrived);
}

impl PipeTable {
    /// Records a packet's arrival at an instance of a pipe at `now` (ns). If the packet creates the
    /// instance, a record of the instance's flow identifier comes first. Records nothing if there
    /// is no such pipe, or no instance for the packet.
    #[cold]
    #[inline(never)]
    pub fn note_arrival(&self, log: &mut RecordLog, now: u64, number: PipeNumber, packet: Packet)
        requires { 2 ≤ log.old.spare }
        ensures records { (p : Pocket) (n : Net) → log.new.records
            ≡ log.old.records
            ++ option_map_or (arrivals now packet)
            (find_pipe number (with_pipes p self.now n)) [] }
        ensures room { log.old.spare ≤ log.new.spare + 2 }
    {
        let Some(place) = self.place_of(number) else {
            return;
        };
        note_at(&self.pipes[place], log, now, &packet);
    }

    /// Records an arrival like `note_arrival`, given the places of the packet's pipe and of its
    /// instance, which exist.
    #[inline(always)]
    pub fn note_arrival_at(
        &self,
        log: &mut RecordLog,
        now: u64,
        place: usize,
        instance: usize,
        packet: &Packet,
    )
        requires room { 1 ≤ log.old.spare }
        requires route { (k : ℕ) × IsRouted k packet.now place instance self.now.pipes }
        ensures records { (k : ℕ) → StandsAt k place self.now.pipes → (p : Pocket) (n : Net) →
            log.new.records ≡ log.old.records
            ++ option_map_or (arrivals now packet.now) (find_pipe k (with_pipes p self.now n)) [] }
        ensures room { log.old.spare ≤ log.new.spare + 1 }
    {
        let pipe = &self.pipes[place];
        let _count = pipe.instances();
        let Packet { number, .. } = *packet;
        log.note(&Record::PacketArrived {
            moment: now,
            packet: number,
            pipe: pipe.number(),
            instance: instance as u8,
        });
    }
}

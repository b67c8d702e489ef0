//! Worked examples of one experiment, refusals in their order, and failed allocations.

ghost use Rattle.packet_store.specs.Own.{own_pocket};
ghost use Rattle.experiment.specs.Kept.{IsHousedIn};

use crate::tests::wants::{assert_record, assert_same};
use emu_model::{
    Action, Bandwidth, Budget, Class, Command, Delay, Discipline, Due, Ending, Load, LossRate,
    Mask, Origin, PacketBudget, PipeConfig, PipeNumber, Prefix, PrefixLength, Protocol,
    ProtocolMatch, QueueLimit, Record, Rule, RuleNumber, SendSpec, Size, SlotLimit, Source, Spec,
    StepBudget, Timed,
};
use experiment::*;
use packet_store::OwnShelf;
use std::alloc::Global;
use std::process::Abort;

/// An experiment together with its shelf.
#[derive(Drop)]
struct Bench {
    shelf: OwnShelf,
    experiment: Experiment,
    ghost housed: { IsHousedIn (own_pocket shelf) experiment },
}

impl Bench {
    /// Creates an experiment without commands. Returns `None` if an allocation fails.
    fn new(alloc: Global, packets: u16, steps: u32) -> Option<Self> {
        let packets = PacketBudget::new(packets)?;
        let steps = StepBudget::new(steps)?;
        let budget = Budget { packets, steps };
        let shelf = OwnShelf::new(alloc, packets);
        let Ok(experiment) = Experiment::new(
            alloc,
            Spec {
                seed: 0,
                budget,
                traced: false,
            },
        ) else {
            return None;
        };
        Some(Bench { shelf, experiment })
    }

    fn apply(&mut self, moment: u32, command: Command) -> Result<(), ApplyError> {
        let moment = u64::from(moment);
        self.experiment.apply(&Timed { moment, command })
    }

    fn has_room(&mut self) -> bool {
        self.experiment.apply_ready().is_ok()
    }

    /// Returns true if there is room for a command. Retries once if an allocation fails.
    fn has_room_in_the_end(&mut self) -> bool {
        self.has_room() || self.has_room()
    }

    fn event(&mut self) -> Event {
        self.experiment.event(&mut self.shelf, 0)
    }

    /// Applies a command, which must be the next event.
    fn takes(&mut self, moment: u32, command: Command) -> bool {
        self.apply(moment, command).is_ok() && self.event() == Event::Ran
    }

    /// Returns the numbers of records, commands, steps and packets.
    fn totals(&self) -> (usize, usize, u64, u64) {
        let records = self.experiment.records().len();
        let commands = self.experiment.consumed().len();
        (
            records,
            commands,
            self.experiment.events(),
            self.experiment.counters().made,
        )
    }

    /// Applies a command, and retries once if an allocation fails, after which nothing must have
    /// changed.
    fn applies_in_the_end(&mut self, moment: u32, command: Command) -> bool {
        let moment = u64::from(moment);
        let timed = Timed { moment, command };
        let before = self.totals();
        match self.experiment.apply(&timed) {
            Ok(()) => true,
            Err(error) => {
                error == ApplyError::NoMemory
                    && self.totals() == before
                    && self.experiment.apply(&timed).is_ok()
            }
        }
    }

    /// Returns the dues, and retries once if an allocation fails.
    fn dues_in_the_end(&self, alloc: Global) -> Option<Vec<Due>> {
        match self.experiment.dues(alloc) {
            Ok(dues) => Some(dues),
            Err(_) => self.experiment.dues(alloc).ok(),
        }
    }

    /// Returns the sources that were touched since the last call, and retries once if an allocation
    /// fails.
    fn touched_in_the_end(&mut self, sources: &mut Vec<Source>) -> bool {
        self.experiment.touched(sources).is_ok()
            || (sources.is_empty() && self.experiment.touched(sources).is_ok())
    }

    /// Processes an event. Returns `None` if it halts and the state has changed, or if something
    /// follows the halt.
    fn event_or_halt(&mut self) -> Option<Event> {
        let before = self.totals();
        let event = self.event();
        if event != Event::Halted {
            return Some(event);
        }
        let ends = self.totals() == before
            && matches!(self.experiment.ending(), Some(Ending::Halted))
            && self.event() == Event::Still
            && self.apply(u32::MAX, Command::End) == Err(ApplyError::Over)
            && self.totals() == before;
        if ends { Some(event) } else { None }
    }
}

/// Returns the configuration of pipe 1 with 1 Mbit/s and 10 ms.
fn config() -> Option<Command> {
    Some(Command::Config {
        pipe: PipeNumber::new(1)?,
        config: PipeConfig {
            bw: Bandwidth::new(1_000_000)?,
            delay: Delay::new(10)?,
            queue: QueueLimit::Slots(SlotLimit::new(50)?),
            plr: LossRate::new(0)?,
            mask: Mask {
                proto: 0,
                src: 0,
                dst: 0,
                sport: 0,
                dport: 0,
            },
            discipline: Discipline::TailDrop,
        },
    })
}

/// Returns a rule that sends all packets to pipe 1.
fn rule() -> Option<Command> {
    let any = Prefix::new(0, PrefixLength::new(0)?);
    Some(Command::Add(Rule {
        number: RuleNumber::new(100)?,
        action: Action::Pipe(PipeNumber::new(1)?),
        proto: ProtocolMatch::AnyProtocol,
        src: any,
        sports: None,
        dst: any,
        dports: None,
    }))
}

/// Returns an `inject` of a packet of 1000 bytes.
fn inject() -> Option<Command> {
    Some(Command::Inject(SendSpec {
        proto: Protocol::Udp,
        src: 0x0a00_0001,
        sport: 1000,
        dst: 0x0a00_0002,
        dport: 2000,
        size: Size::new(1000)?,
    }))
}

fn done_record(moment: u64, command: u64) -> Record {
    Record::CommandDone { moment, command }
}

/// Checks that a command is refused as busy while another waits, and as backward before its time.
fn refuses_two_commands(rt: &impl Abort, bench: &mut Bench) {
    assert_same(rt, bench.apply(5, Command::Show), Ok(()));
    assert_same(rt, bench.apply(5, Command::Show), Err(ApplyError::Busy));
    assert_same(rt, bench.apply(4, Command::Show), Err(ApplyError::Busy));
    assert_holds!(rt; bench.experiment.has_next());
    assert_same(rt, bench.event(), Event::Ran);
    assert_holds!(rt; !bench.experiment.has_next());
    assert_same(rt, bench.event(), Event::Still);
    assert_same(rt, bench.apply(4, Command::End), Err(ApplyError::Backward));
}

/// Checks that a command after the end is refused as over.
fn refuses_all_after_the_end(rt: &impl Abort, bench: &mut Bench) {
    assert_same(rt, bench.apply(5, Command::End), Ok(()));
    assert_same(rt, bench.event(), Event::Ended);
    assert_same(rt, bench.apply(4, Command::End), Err(ApplyError::Over));
    assert_same(rt, bench.event(), Event::Still);
    assert_holds!(rt; matches!(bench.experiment.ending(), Some(Ending::Ended)));

    // The records are the reply, the line of the default rule, and the reply.
    let records = bench.experiment.records();
    assert_same(rt, records.len(), 3);
    assert_record(rt, records, 2, done_record(5, 1));
    assert_same(rt, bench.totals(), (3, 2, 2, 0));
}

/// Checks the refusals as busy, then as backward, and then as over.
#[test]
fn a_command_is_busy_then_backward_then_over(rt: HostRuntime) {
    let mut bench = Bench::new(rt.alloc(), 10, 1000).expect(&rt, "a bench");
    refuses_two_commands(&rt, &mut bench);
    refuses_all_after_the_end(&rt, &mut bench);
    drop(bench);
}

/// Checks the numbers of refusals that users see.
#[test]
fn refusals_have_their_numbers(rt: HostRuntime) {
    let numbers = [
        ApplyError::Busy as u8,
        ApplyError::Backward as u8,
        ApplyError::Over as u8,
        ApplyError::NoMemory as u8,
    ];
    assert_holds!(&rt; numbers == [27, 28, 29, 99]);
}

/// Creates a bench in which a packet enters a pipe of 1 Mbit/s and 10 ms at time 0.
fn bench_with_packet(rt: &(impl Abort + AllocGlobal)) -> Bench {
    let mut bench = Bench::new(rt.alloc(), 10, 1000).expect(rt, "a bench");
    assert_holds!(rt; bench.takes(0, config().expect(rt, "in range")));
    assert_holds!(rt; bench.takes(0, rule().expect(rt, "in range")));
    assert_holds!(rt; bench.takes(0, inject().expect(rt, "in range")));
    bench
}

/// Checks that the packet finishes and is delivered, and that the experiment ends.
fn goes_through(rt: &impl Abort, bench: &mut Bench) {
    assert_same(rt, bench.experiment.counters().held, 1);
    assert_same(rt, bench.experiment.packet_count(), 1);
    assert_same(rt, bench.experiment.clock(), 0);
    assert_same(rt, bench.apply(20_000_000, Command::End), Ok(()));
    assert_same(rt, bench.event(), Event::Ran);
    assert_same(rt, bench.experiment.clock(), 8_000_000);
    assert_same(rt, bench.event(), Event::Ran);
    assert_same(rt, bench.experiment.packet_count(), 0);
    assert_same(rt, bench.event(), Event::Ended);
    assert_same(rt, bench.experiment.clock(), 20_000_000);
    assert_holds!(rt; bench.experiment.spec().seed == 0);
}

/// Returns the commands and the records.
fn lists(bench: Bench) -> (Vec<Timed>, Vec<Record>) {
    bench.experiment.into_lists()
}

/// Checks that a packet of 1000 bytes at time 0 finishes at 8000000, and is delivered at 18000000.
#[test]
fn one_packet(rt: HostRuntime) {
    let pipe = PipeNumber::new(1).expect(&rt, "a pipe");
    let finished = Record::PacketFinished {
        moment: 8_000_000,
        packet: 0,
        pipe,
        instance: 0,
    };
    let delivered = Record::PacketDelivered {
        moment: 18_000_000,
        packet: 0,
        load: Load::Plain,
    };
    let mut bench = bench_with_packet(&rt);
    goes_through(&rt, &mut bench);
    let (commands, records) = lists(bench);
    assert_same(&rt, commands.len(), 4);
    assert_same(&rt, records.len(), 6);
    assert_record(&rt, &records, 3, finished);
    assert_record(&rt, &records, 4, delivered);
    assert_record(&rt, &records, 5, done_record(20_000_000, 3));
}

fn due(class: Class, number: u32, moment: u64) -> Due {
    let source = Source { class, number };
    Due { moment, source }
}

fn names(sources: &[Source], due: Due) -> bool {
    sources.iter().any(|source| *source == due.source)
}

/// Checks that these two are due, and that these are touched or not.
fn are_due(
    rt: &(impl Abort + AllocGlobal),
    bench: &mut Bench,
    wanted: &[Due],
    touched: &[(Due, bool)],
) {
    let dues = bench.dues_in_the_end(rt.alloc()).expect(rt, "memory");
    assert_holds!(rt; dues.as_slice() == wanted);
    let mut sources = Vec::new(rt.alloc());
    assert_holds!(rt; bench.touched_in_the_end(&mut sources));
    for (due, is_touched) in touched {
        assert_same(rt, names(&sources, *due), *is_touched);
    }
}

/// Checks the dues of a bench with one packet, up to its end. First the packet is due at its
/// finish, and everything that is due is touched; then it is due at its exit, and both sources of
/// its pipe were touched.
fn dues_to_the_end(rt: &(impl Abort + AllocGlobal), bench: &mut Bench) {
    let end = due(Class::NextCommand, 0, 20_000_000);
    let finish = due(Class::Finish, 256, 8_000_000);
    let exit = due(Class::Exit, 256, 18_000_000);
    assert_same(rt, bench.apply(20_000_000, Command::End), Ok(()));
    are_due(rt, bench, &[end, finish], &[(finish, true), (end, true)]);
    assert_holds!(rt; bench.experiment.noted_dues() == [end, finish].as_slice());
    assert_same(rt, bench.event(), Event::Ran);
    let touched = [(finish, true), (exit, true), (end, false)];
    are_due(rt, bench, &[end, exit], &touched);
    assert_same(rt, bench.event(), Event::Ran);
    assert_same(rt, bench.event(), Event::Ended);
    let dues = bench.dues_in_the_end(rt.alloc()).expect(rt, "memory");
    assert_holds!(rt; dues.is_empty());
}

/// Checks that a packet in service is due at its finish, and then at its exit. The step of its pipe
/// touches both, and not the next command.
#[test]
fn dues_of_one_packet(rt: HostRuntime) {
    let mut bench = bench_with_packet(&rt);
    dues_to_the_end(&rt, &mut bench);
    drop(bench);
}

/// Checks that the packet is still held at the end.
fn is_held_in_the_end(rt: &impl Abort, bench: &mut Bench) {
    assert_same(rt, bench.apply(18_000_000, Command::End), Ok(()));
    assert_same(rt, bench.event(), Event::Ran);
    assert_same(rt, bench.event(), Event::Ended);
    let counters = bench.experiment.counters();
    assert_same(
        rt,
        (counters.made, counters.delivered, counters.held),
        (1, 0, 1),
    );
}

/// Checks that a packet isn't delivered if the experiment ends at the time of its exit, because the
/// command comes first.
#[test]
fn one_packet_held(rt: HostRuntime) {
    let mut bench = bench_with_packet(&rt);
    is_held_in_the_end(&rt, &mut bench);
    drop(bench);
}

/// Returns true if a record is the line of a rule that has matched nothing.
fn is_idle_rule(record: Option<&Record>) -> bool {
    matches!(
        record,
        Some(Record::RuleLine {
            packets: 0,
            bytes: 0,
            ..
        })
    )
}

/// Checks that two listings spend the budget of two steps.
fn spends_two_steps(rt: &impl Abort, bench: &mut Bench) {
    assert_holds!(rt; bench.takes(0, Command::Show));
    assert_same(rt, bench.apply(0, Command::Show), Ok(()));
    assert_same(rt, bench.event(), Event::Ended);
    assert_holds!(rt; matches!(bench.experiment.ending(), Some(Ending::Spent)));
    assert_same(rt, bench.apply(0, Command::End), Err(ApplyError::Over));
    assert_same(rt, bench.event(), Event::Still);
    let records = bench.experiment.records();
    assert_same(rt, records.len(), 5);
    assert_record(rt, records, 0, done_record(0, 0));
    assert_holds!(rt; is_idle_rule(records.get(1)));
    assert_record(rt, records, 2, done_record(0, 1));
    assert_record(rt, records, 4, Record::StepsSpent { moment: 0 });
    assert_same(rt, bench.experiment.events(), 2);
}

/// Checks a budget of two steps: the second listing ends with `spent`, and no step is left for
/// `end`.
#[test]
fn step_budget(rt: HostRuntime) {
    let mut bench = Bench::new(rt.alloc(), 10, 2).expect(&rt, "a bench");
    spends_two_steps(&rt, &mut bench);
    drop(bench);
}

/// Checks that the only step is the end.
fn ends_at_once(rt: &impl Abort, bench: &mut Bench) {
    assert_same(rt, bench.apply(7, Command::End), Ok(()));
    assert_same(rt, bench.event(), Event::Ended);
    assert_holds!(rt; matches!(bench.experiment.ending(), Some(Ending::Ended)));
    assert_same(rt, bench.experiment.records().len(), 1);
}

/// Checks that an `end` that is the last step of the budget doesn't end with `spent`.
#[test]
fn last_step_is_the_end(rt: HostRuntime) {
    let mut bench = Bench::new(rt.alloc(), 10, 1).expect(&rt, "a bench");
    ends_at_once(&rt, &mut bench);
    drop(bench);
}

/// Checks that there is room after at most two tries, and that nothing has changed.
fn has_room_in_the_end(rt: &impl Abort, bench: &mut Bench) {
    let before = bench.totals();
    assert_holds!(rt; bench.has_room_in_the_end());
    assert_same(rt, bench.totals(), before);
    assert_same(rt, bench.apply(5, Command::Show), Ok(()));
}

/// Checks that room for a command can be reserved beforehand, with one retry if an allocation
/// fails. Nothing has changed then, and the command doesn't allocate.
#[test]
fn a_command_has_room(rt: HostRuntime) {
    let Some(mut bench) = Bench::new(rt.alloc(), 10, 1000) else {
        return;
    };
    has_room_in_the_end(&rt, &mut bench);
    drop(bench);
}

/// Applies commands, with retries, and checks that an event that halts changes nothing. Returns
/// whether the experiment continues, or `None` if a result was wrong.
fn obeys_or_halts(rt: &impl Abort, bench: &mut Bench, commands: &[Command]) -> Option<bool> {
    for command in commands {
        assert_holds!(rt; bench.applies_in_the_end(0, *command));
        if bench.event_or_halt()? == Event::Halted {
            return Some(false);
        }
    }
    Some(true)
}

/// Checks that two sources are due, and that something was touched.
fn are_two_due(rt: &impl Abort, alloc: Global, bench: &mut Bench) {
    let dues = bench.dues_in_the_end(alloc).expect(rt, "memory");
    assert_same(rt, dues.len(), 2);
    let mut touched = Vec::new(alloc);
    assert_holds!(rt; bench.touched_in_the_end(&mut touched));
    assert_holds!(rt; !touched.is_empty());
}

/// Processes three more events, up to a halt. Returns whether the experiment ended, or `None` if a
/// result was wrong.
fn ends_or_halts(rt: &impl Abort, alloc: Global, bench: &mut Bench) -> Option<bool> {
    assert_holds!(rt; bench.applies_in_the_end(20_000_000, Command::End));
    are_two_due(rt, alloc, bench);
    for _ in 0..3 {
        if bench.event_or_halt()? == Event::Halted {
            return Some(false);
        }
    }
    assert_holds!(rt; matches!(bench.experiment.ending(), Some(Ending::Ended)));
    Some(true)
}

/// Processes all commands and events. Returns `None` if a result was wrong.
fn plays_or_halts(rt: &impl Abort, alloc: Global, bench: &mut Bench) -> Option<bool> {
    let commands = [config()?, rule()?, inject()?, Command::PipeShow];
    if !obeys_or_halts(rt, bench, &commands)? {
        return Some(false);
    }
    ends_or_halts(rt, alloc, bench)
}

/// Checks that a command succeeds on the second try, and that an event that halts changes nothing.
/// Passes with ample memory, and if any one allocation fails.
#[test]
fn refused_memory_changes_nothing(rt: HostRuntime) {
    let Some(mut bench) = Bench::new(rt.alloc(), 10, 1000) else {
        return;
    };
    let played = plays_or_halts(&rt, rt.alloc(), &mut bench);
    drop(bench);
    assert_holds!(&rt; played.is_some());
}

/// Returns the records of one packet through the pipe, traced from the first command on.
fn lines_of_a_traced_packet() -> Option<[Record; 10]> {
    let pipe = PipeNumber::new(1)?;
    let (packet, instance) = (0, 0);
    Some([
        done_record(0, 0),
        done_record(0, 1),
        done_record(0, 2),
        done_record(0, 3),
        Record::PacketMade {
            moment: 0,
            packet,
            origin: Origin::ByCommand(3),
            proto: Protocol::Udp,
            src: 0x0a00_0001,
            sport: 1000,
            dst: 0x0a00_0002,
            dport: 2000,
            size: Size::new(1000)?,
        },
        Record::InstanceIdentified {
            moment: 0,
            pipe,
            instance,
            proto: 0,
            src: 0,
            dst: 0,
            sport: 0,
            dport: 0,
        },
        Record::PacketArrived {
            moment: 0,
            packet,
            pipe,
            instance,
        },
        Record::PacketFinished {
            moment: 8_000_000,
            packet,
            pipe,
            instance,
        },
        Record::PacketDelivered {
            moment: 18_000_000,
            packet,
            load: Load::Plain,
        },
        done_record(20_000_000, 4),
    ])
}

/// Applies the end, and processes a finish and an exit before it, up to a halt. Returns whether the
/// experiment ended, or `None` if a result was wrong.
fn comes_out_or_halts(rt: &impl Abort, bench: &mut Bench) -> Option<bool> {
    assert_holds!(rt; bench.applies_in_the_end(20_000_000, Command::End));
    for _ in 0..3 {
        if bench.event_or_halt()? == Event::Halted {
            return Some(false);
        }
    }
    Some(true)
}

/// Traces a packet up to the end or a halt, and checks the records up to there. Returns whether the
/// experiment ended, or `None` if a result was wrong.
fn traces_or_halts(rt: &impl Abort, bench: &mut Bench, lines: &[Record]) -> Option<bool> {
    let commands = [Command::Trace(true), config()?, rule()?, inject()?];
    let sent = obeys_or_halts(rt, bench, &commands)?;
    let whole = sent && comes_out_or_halts(rt, bench)?;
    let records = bench.experiment.records();
    assert_holds!(rt; (records.len() == lines.len()) == whole);
    assert_holds!(rt; lines.starts_with(records));
    Some(whole)
}

/// Checks that an event that halts changes nothing, and that an experiment that is repeated records
/// the creation, the instance and the arrival. Passes with ample memory, and if any one allocation
/// fails.
#[test]
fn refused_trace_is_recorded_at_the_second_try(rt: HostRuntime) {
    let lines = lines_of_a_traced_packet().expect(&rt, "in range");
    let mut whole = false;
    for _try in 0..2 {
        let Some(mut bench) = Bench::new(rt.alloc(), 10, 1000) else {
            continue;
        };
        let traced = traces_or_halts(&rt, &mut bench, &lines);
        drop(bench);
        whole = whole || traced.expect(&rt, "an event");
    }
    assert_holds!(&rt; whole);
}

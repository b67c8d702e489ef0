//! The answer to each line.

ghost use Rattle.std.specs.Prelude.{◌↔◌, ◌≡◌, ◌≤◌, ◌<◌, ◌^◌, ◌++◌, ◌∷◌, [], ℕ, List, flat_map, Option, None, Ok, IfOk, IsSome, ⊤, IsTrue, All, true, false};
ghost use Rattle.std.specs.List.{AllByRecursion};
ghost use Rattle.control.specs.Scenario.{begun, with_last};
ghost use Rattle.session.specs.Lines.{fault_of, answer_with};
ghost use Rattle.session.specs.Opens.{IsFault};
ghost use Rattle.session.specs.Requests.{IsInRange, Asked, Next, AddNext, Show, Use, Trace, request_of, view_request};
ghost use Rattle.control_lines.specs.Entries.{Does};
ghost use Rattle.session.specs.Effects.{PassesIn, Moves, Obeys, Follows, IsAdded, IsBegun, IsSaid, DoesBy, LineDoes};
ghost use Rattle.session.specs.Faults.{Answers, IsFaultAlone, IsFaultOf, cause_of, place_named, current_of, of_current, begin_fault, command_fault, exceeds, left_after, time_fault, request_fault, asked_fault};
ghost use Rattle.session.specs.Sessions.{Piece, IsPlain, Grows, Asks, Hears, Takes, written, told};

use crate::answer::{Answer, put_answer_with};
use crate::fates::Stop;
use crate::open::Open;
use crate::request::{Request, asked_in, read_request};
use control::{Cause, MAX_EXPERIMENTS};
use control_lines::{LineEntry, LineFault, lines_say_one, read_line};
use emu_model::{Spec, Timed};
use std::alloc::{AllocError, Global};
use std::marker::Model;

/// The maximum length of a line in bytes, without its line feed.
pub const MAX_LINE: usize = 512;

// The list of requests, as comments.
const HELP: &[u8] = b"\
# #> until @M                all that is due below M (ns) happens\n\
# #> until @M first [G]      the same, but at most G ns (1) past the first delivery or drop of an injected packet\n\
# #> until @M first any [G]  the same, of any packet\n\
# #> next                    when the next event is due\n\
# #> next on|off             other answers also say when the next event is due, or not\n\
# #> show mine|all           tell what concerns injected packets, or all\n\
# #> trace on|off            later experiments are traced from their first event on, or not\n\
# #> use NAME                the lines that follow are for this experiment\n\
# other lines are those of a scenario: experiment NAME seed S budget B [steps N], @M COMMAND, @M end\n";

/// Experiments by name, and the current one.
#[derive(Drop)]
pub struct Session {
    alloc: Global,
    open: Vec<Open>,
    current: usize,
    // The steps that further experiments may take together, if there is a limit.
    left: Option<u64>,
    // True if further experiments are traced.
    traces: bool,
}

impl Model for Session {
    ghost use Rattle.session.specs.Sessions.{KeptSession};

    ghost Value = { KeptSession };

    ghost view = { λ s. record {
      opened = s.open.items;
      current = s.current;
      left = s.left;
      traces = s.traces;
    } };
}

// Returns the cause for a fault of a line.
fn cause_of(fault: LineFault) -> Cause
    ensures { result ≡ cause_of fault }
{
    match fault {
        LineFault::TooLong => Cause::TooLong,
        LineFault::BadByte => Cause::BadByte,
        LineFault::BadWord => Cause::BadWord,
        LineFault::OutOfRange => Cause::OutOfRange,
    }
}

// Returns the number of steps that an experiment may take.
fn steps_of(spec: &Spec) -> u64
    ensures { result ≡ spec.now.budget.steps }
{
    u64::from(spec.budget.steps.get())
}

impl Session {
    /// Creates a session without experiments, whose experiments may take at most this many steps
    /// together, if there is a limit. A line that begins an experiment beyond it has the fault
    /// `TooMany`. Tracing is off. Does not allocate.
    pub fn new(alloc: Global, steps: Option<u64>) -> Self
        ensures { result ≡ record { opened = []; current = 0; left = steps; traces = false } }
    {
        Session {
            alloc,
            open: Vec::new(alloc),
            current: 0,
            left: steps,
            traces: false,
        }
    }

    /// Returns true if each experiment has its end.
    pub fn is_whole(&self) -> bool
        ensures { IsTrue result ↔ All (λ o. o.is_closed ≡ true) self.now.opened }
    {
        self.open.iter().all(|it| it.is_closed())
    }

    // Returns the index of the experiment with a name.
    fn place_of(&self, name: &[u8]) -> Option<usize>
        ensures { result ≡ place_named name.now self.now.opened }
    {
        self.open.iter().position(|it| it.name() == name)
    }

    // Returns the answer to `next`, if it is to be added to this answer.
    fn added(&self, answer: Answer) -> Option<Answer>
        ensures { IsAdded (current_of self.now) answer result }
    {
        self.open.get(self.current)?.added(answer)
    }

    // Returns true if these are more steps than are left.
    fn exceeds(&self, steps: u64) -> bool
        ensures { result ≡ exceeds self.now.left steps }
    {
        match self.left {
            Some(left) => left < steps,
            None => false,
        }
    }

    // Returns the steps that are left after these.
    fn left_after(&self, steps: u64) -> Option<u64>
        ensures { result ≡ left_after self.now.left steps }
    {
        match self.left {
            Some(left) => Some(left.saturating_sub(steps)),
            None => None,
        }
    }

    // Appends an answer, except a fault, which is returned.
    fn say(&self, answer: Answer, out: &mut Vec<u8>) -> Result<Option<Cause>, AllocError>
        ensures { IfOk result (λ f. (f ≡ fault_of answer)
            × (IsFault answer → out.new.items ≡ out.old.items)
            × (¬ IsFault answer → (more : Option Answer)
            × (out.new.items ≡ out.old.items ++ answer_with answer more)
            × IsAdded (current_of self.now) answer more)) }
    {
        if let Answer::Fault(cause) = answer {
            return Ok(Some(cause));
        }
        put_answer_with(out, answer, self.added(answer))?;
        Ok(None)
    }

    // Begins an experiment.
    fn begin(&mut self, name: &[u8], spec: Spec, out: &mut Vec<u8>) -> Result<Answer, AllocError>
        ensures grows { IfOk result (λ a. (bytes : List ℕ) × (out.new.items ≡ out.old.items ++ bytes)
            × (¬ IsFault a → Grows (λ es. es ++ begun name.now spec ∷ []) bytes self.old self.new)) }
        ensures fault { IfOk result (λ a. Answers (begin_fault self.old name.now spec) a
            ((self.new ≡ self.old) × (out.new.items ≡ out.old.items))) }
        ensures begins { IfOk result (λ a. ¬ IsFault a → (bytes : List ℕ)
            × (out.new.items ≡ out.old.items ++ bytes)
            × IsBegun name.now spec bytes a self.old self.new) }
    {
        if self.open.len() >= MAX_EXPERIMENTS {
            return Ok(Answer::Fault(Cause::TooMany));
        }
        if self.place_of(name).is_some() {
            return Ok(Answer::Fault(Cause::SameName));
        }
        let steps = steps_of(&spec);
        if self.exceeds(steps) {
            return Ok(Answer::Fault(Cause::TooMany));
        }
        let begun = Open::new(self.alloc, name, spec, self.traces, out)?;
        self.left = self.left_after(steps);
        self.current = self.open.len();
        self.open.push(begun)?;
        Ok(Answer::Done)
    }

    // Passes a command to the current experiment.
    fn command(&mut self, command: &Timed, out: &mut Vec<u8>) -> Result<Answer, AllocError>
        requires { command.now.moment ≤ 10 ^ 15 }
        ensures grows { IfOk result (λ a. (bytes : List ℕ) × (out.new.items ≡ out.old.items ++ bytes)
            × (¬ IsFault a → Grows (λ es. with_last es command.now) bytes self.old self.new)) }
        ensures fault { IfOk result (λ a. Answers
            (of_current (λ o. command_fault o command.now.moment) (current_of self.old)) a
            ((self.new ≡ self.old) × (out.new.items ≡ out.old.items))) }
        ensures obeys { IfOk result (λ a. ¬ IsFault a → (bytes : List ℕ)
            × (out.new.items ≡ out.old.items ++ bytes)
            × Follows (Does command.now) bytes a self.old self.new) }
    {
        let place = self.current;
        if place >= self.open.len() {
            return Ok(Answer::Fault(Cause::NoExperiment));
        }
        let answer = self.open[place].take(command, out)?;
        Ok(answer)
    }

    // Makes the experiment with a name the current one.
    fn turn_to(&mut self, name: &[u8], out: &mut Vec<u8>) -> Result<Answer, AllocError>
        ensures turns { IfOk result (λ a. (ps : List Piece)
            × (out.new.items ≡ out.old.items ++ flat_map written ps)
            × (¬ IsFault a → ¬ AllByRecursion IsPlain ps)) }
        ensures fault { IfOk result (λ a. Answers (request_fault self.old (Use name.now)) a
            ((self.new ≡ self.old) × (out.new.items ≡ out.old.items))) }
        ensures obeys { IfOk result (λ a. ¬ IsFault a → (bytes : List ℕ)
            × (out.new.items ≡ out.old.items ++ bytes)
            × Obeys (Use name.now) bytes a self.old self.new) }
    {
        let Some(place) = self.place_of(name) else {
            return Ok(Answer::Fault(Cause::NoExperiment));
        };
        self.current = place;
        out.extend_from_slice(b"#: ")?;
        out.extend_from_slice(name)?;
        out.extend_from_slice(b"\n")?;
        Ok(Answer::Done)
    }

    // Lets time pass in the current experiment, to `limit` (ns) or until `stop`.
    fn until(&mut self, limit: u64, stop: Stop, out: &mut Vec<u8>) -> Result<Answer, AllocError>
        requires { limit ≤ 10 ^ 15 }
        ensures grows { IfOk result (λ _. (bytes : List ℕ) × (out.new.items ≡ out.old.items ++ bytes)
            × Grows (λ es. es) bytes self.old self.new) }
        ensures fault { IfOk result (λ a. Answers
            (of_current (λ o. time_fault o limit) (current_of self.old)) a
            ((self.new ≡ self.old) × (out.new.items ≡ out.old.items))) }
        ensures passes { IfOk result (λ a. ¬ IsFault a → (bytes : List ℕ)
            × (out.new.items ≡ out.old.items ++ bytes)
            × Moves (λ b o p. PassesIn o.phase limit stop bytes b o p) a self.old self.new) }
    {
        let place = self.current;
        if place >= self.open.len() {
            return Ok(Answer::Fault(Cause::NoExperiment));
        }
        let answer = self.open[place].until(limit, stop, out)?;
        Ok(answer)
    }

    // Sets which records of the current experiment are reported from now on.
    fn show(&mut self, all: bool) -> Answer
        ensures grows { ¬ (all ≡ false) → Grows (λ es. es) [] self.old self.new }
        ensures fault { Answers (of_current (λ _. None) (current_of self.old)) result
            (self.new ≡ self.old) }
        ensures shows { ¬ IsFault result → Obeys (Show all) [] result self.old self.new }
    {
        let place = self.current;
        if place >= self.open.len() {
            return Answer::Fault(Cause::NoExperiment);
        }
        self.open[place].show(all);
        Answer::Done
    }

    // Sets whether the answer to `next` is added to other answers of the current experiment from
    // now on.
    fn add_next(&mut self, on: bool) -> Answer
        ensures grows { Grows (λ es. es) [] self.old self.new }
        ensures fault { Answers (of_current (λ _. None) (current_of self.old)) result
            (self.new ≡ self.old) }
        ensures adds { ¬ IsFault result → Obeys (AddNext on) [] result self.old self.new }
    {
        let place = self.current;
        if place >= self.open.len() {
            return Answer::Fault(Cause::NoExperiment);
        }
        self.open[place].add_next(on);
        Answer::Done
    }

    // Sets whether experiments that begin from now on are traced.
    fn trace(&mut self, on: bool) -> Answer
        ensures asks { Asks (Ok (Trace on)) [] self.old self.new }
        ensures traces { Obeys (Trace on) [] result self.old self.new }
        ensures fine { ¬ IsFault result }
    {
        self.traces = on;
        Answer::Done
    }

    // Returns the time of the next event in the current experiment, as an answer.
    fn next(&self) -> Answer
        ensures fault { Answers (of_current (λ _. None) (current_of self.now)) result ⊤ }
        ensures next { ¬ IsFault result → Obeys Next [] result self.now self.now }
    {
        match self.open.get(self.current) {
            Some(open) => open.next(),
            None => Answer::Fault(Cause::NoExperiment),
        }
    }

    // Obeys a request.
    fn obey(&mut self, request: Request, out: &mut Vec<u8>) -> Result<Answer, AllocError>
        requires { IsInRange request }
        ensures grows { IfOk result (λ a. (ps : List Piece)
            × (out.new.items ≡ out.old.items ++ flat_map written ps)
            × (¬ IsFault a → AllByRecursion IsPlain ps →
            Asks (Ok (view_request request.entry)) (flat_map told ps) self.old self.new)) }
        ensures fault { IfOk result (λ a.
            Answers (request_fault self.old (view_request request.entry)) a
            ((self.new ≡ self.old) × (out.new.items ≡ out.old.items))) }
        ensures obeys { IfOk result (λ a. ¬ IsFault a → (bytes : List ℕ)
            × (out.new.items ≡ out.old.items ++ bytes)
            × Obeys (view_request request.entry) bytes a self.old self.new) }
    {
        match request {
            Request::Until { limit } => self.until(limit, Stop::Moment, out),
            Request::UntilMine { limit, hold } => self.until(limit, Stop::Mine(hold), out),
            Request::UntilAny { limit, hold } => self.until(limit, Stop::Any(hold), out),
            Request::Next => Ok(self.next()),
            Request::AddNext { on } => Ok(self.add_next(on)),
            Request::Use { name } => self.turn_to(name, out),
            Request::Show { all } => Ok(self.show(all)),
            Request::Trace { on } => Ok(self.trace(on)),
            Request::Help => {
                out.extend_from_slice(HELP)?;
                Ok(Answer::Done)
            }
        }
    }

    // Parses and obeys a request.
    fn answer(&mut self, asked: &[u8], out: &mut Vec<u8>) -> Result<Answer, AllocError>
        ensures grows { IfOk result (λ a. (ps : List Piece)
            × (out.new.items ≡ out.old.items ++ flat_map written ps)
            × (¬ IsFault a → AllByRecursion IsPlain ps →
            Asks (request_of asked.now) (flat_map told ps) self.old self.new)) }
        ensures fault { IfOk result (λ a. Answers (asked_fault self.old (request_of asked.now)) a
            ((self.new ≡ self.old) × (out.new.items ≡ out.old.items))) }
        ensures obeys { IfOk result (λ a. ¬ IsFault a → (bytes : List ℕ)
            × (out.new.items ≡ out.old.items ++ bytes)
            × ((q : Asked) × (request_of asked.now ≡ Ok q)
            × Obeys q bytes a self.old self.new)) }
    {
        match read_request(asked) {
            Ok(request) => self.obey(request, out),
            Err(cause) => Ok(Answer::Fault(cause)),
        }
    }

    // Processes a request, without its `#>`. It is not inlined, which keeps the frame of `take`
    // small.
    #[inline(never)]
    fn take_request(&mut self, asked: &[u8], out: &mut Vec<u8>) -> Result<Option<Cause>, AllocError>
        ensures grows { IfOk result (λ f. f ≡ None → (ps : List Piece)
            × (out.new.items ≡ out.old.items ++ flat_map written ps)
            × (AllByRecursion IsPlain ps →
            Asks (request_of asked.now) (flat_map told ps) self.old self.new)) }
        ensures fault { IfOk result (λ f. (f ≡ asked_fault self.old (request_of asked.now))
            × (IsSome f → (self.new ≡ self.old) × (out.new.items ≡ out.old.items))) }
        ensures does { IfOk result (λ f. f ≡ None → (said : List ℕ)
            × (out.new.items ≡ out.old.items ++ said)
            × IsSaid said self.new (λ bytes a. (q : Asked) × (request_of asked.now ≡ Ok q)
            × Obeys q bytes a self.old self.new)) }
    {
        let answer = self.answer(asked, out)?;
        self.say(answer, out)
    }

    // Processes the line that begins an experiment.
    fn take_begin(
        &mut self,
        name: &[u8],
        spec: Spec,
        out: &mut Vec<u8>,
    ) -> Result<Option<Cause>, AllocError>
        ensures grows { IfOk result (λ f. f ≡ None → (ps : List Piece)
            × (out.new.items ≡ out.old.items ++ flat_map written ps)
            × (AllByRecursion IsPlain ps →
            Grows (λ es. es ++ begun name.now spec ∷ []) (flat_map told ps) self.old self.new)) }
        ensures fault { IfOk result (λ f. (f ≡ begin_fault self.old name.now spec)
            × (IsSome f → (self.new ≡ self.old) × (out.new.items ≡ out.old.items))) }
        ensures does { IfOk result (λ f. f ≡ None → (said : List ℕ)
            × (out.new.items ≡ out.old.items ++ said)
            × IsSaid said self.new (λ bytes a. IsBegun name.now spec bytes a self.old self.new)) }
    {
        let answer = self.begin(name, spec, out)?;
        self.say(answer, out)
    }

    // Processes the line of a command.
    fn take_command(
        &mut self,
        command: &Timed,
        out: &mut Vec<u8>,
    ) -> Result<Option<Cause>, AllocError>
        requires { command.now.moment ≤ 10 ^ 15 }
        ensures grows { IfOk result (λ f. f ≡ None → (ps : List Piece)
            × (out.new.items ≡ out.old.items ++ flat_map written ps)
            × (AllByRecursion IsPlain ps →
            Grows (λ es. with_last es command.now) (flat_map told ps) self.old self.new)) }
        ensures fault { IfOk result (λ f.
            (f ≡ of_current (λ o. command_fault o command.now.moment) (current_of self.old))
            × (IsSome f → (self.new ≡ self.old) × (out.new.items ≡ out.old.items))) }
        ensures does { IfOk result (λ f. f ≡ None → (said : List ℕ)
            × (out.new.items ≡ out.old.items ++ said)
            × IsSaid said self.new (λ bytes a. Follows (Does command.now) bytes a self.old self.new)) }
    {
        let answer = self.command(command, out)?;
        self.say(answer, out)
    }

    // Processes a line of a scenario.
    fn take_line(&mut self, line: &[u8], out: &mut Vec<u8>) -> Result<Option<Cause>, AllocError>
        ensures hears { IfOk result (λ f. f ≡ None → (ps : List Piece)
            × (out.new.items ≡ out.old.items ++ flat_map written ps)
            × (AllByRecursion IsPlain ps → Hears line.now (flat_map told ps) self.old self.new)) }
        ensures fault { IfOk result (λ f. IsFaultAlone self.old line.now f
            × (IsSome f → (self.new ≡ self.old) × (out.new.items ≡ out.old.items))) }
        ensures does { IfOk result (λ f. f ≡ None → (said : List ℕ)
            × (out.new.items ≡ out.old.items ++ said)
            × DoesBy None line.now said self.old self.new) }
    {
        match read_line(line) {
            Ok(LineEntry::Nothing) => Ok(None),
            Ok(LineEntry::Begins { name, spec }) => self.take_begin(name, spec, out),
            Ok(LineEntry::Does(command)) => self.take_command(&command, out),
            Err(fault) => Ok(Some(cause_of(fault))),
        }
    }

    /// Processes a line, without its line feed, and appends the answer: the records that the line
    /// caused, as in a report, and then one line that begins with `#<`. Blank lines and comments
    /// have no answer. If the line is rejected, its fault is returned, and nothing is changed or
    /// appended; the caller reports the fault. `AllocError` means that an allocation failed and
    /// ends the session. What was appended is then a prefix of the answer.
    pub fn take(&mut self, line: &[u8], out: &mut Vec<u8>) -> Result<Option<Cause>, AllocError>
        ensures takes { IfOk result (λ f. f ≡ None → (ps : List Piece)
            × (out.new.items ≡ out.old.items ++ flat_map written ps)
            × Takes line.now ps self.old self.new) }
        ensures fault { IfOk result (λ f. IsFaultOf line.now self.old f) }
        ensures same { IfOk result (λ f. IsSome f →
            (self.new ≡ self.old) × (out.new.items ≡ out.old.items)) }
        ensures does { IfOk result (λ f. f ≡ None → (said : List ℕ)
            × (out.new.items ≡ out.old.items ++ said)
            × LineDoes line.now said self.old self.new) }
    {
        lines_say_one();
        if line.len() > MAX_LINE {
            return Ok(Some(Cause::TooLong));
        }
        match asked_in(line) {
            Some(asked) => self.take_request(asked, out),
            None => self.take_line(line, out),
        }
    }
}

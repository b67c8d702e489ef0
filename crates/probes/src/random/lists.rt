//! Random lists of steps, each in a world of its own.

use super::fault::Fault;
use super::guests::{Guest, name_of, next_post, was_posted};
use super::stage::Stage;
use emu_model::Spec;
use rand_chacha::ChaCha20Rng;
use rand_core::SeedableRng;
use rand_core::utils::NextWord;
use std::alloc::Global;
use world::{Did, Place, Step};

/// The maximum number of rounds, which is more than any scenario needs to end.
const MAX_ROUNDS: u32 = 100_000_000;

/// The maximum number of commands that wait at once.
const MAIL: u32 = 64;

/// The maximum number of shards in a world.
const SHARDS: u32 = 4;

/// The weights of each kind of step, in four moods: an even mixture; moves; few posts and polls;
/// restarts of time.
const WEIGHTS: [[u32; 9]; 4] = [
    [1, 1, 1, 1, 1, 1, 2, 6, 6],
    [6, 3, 6, 1, 2, 1, 2, 4, 6],
    [1, 1, 2, 0, 2, 0, 1, 1, 12],
    [2, 1, 2, 4, 1, 4, 2, 8, 6],
];

/// A list: its number, the number of its steps, and the seed of its random stream.
#[derive(Clone, Copy)]
pub struct Plan {
    pub list: u32,
    pub steps: u32,
    pub seed: u64,
}

/// The number of steps performed; of those performed one by one, the number that could be done, and
/// how many of these took an experiment from a deque to a shard; the number of failed allocations,
/// and whether the run continues after them.
#[derive(Clone, Copy)]
pub struct Tally {
    pub steps: u64,
    pub done: u64,
    pub moves: u64,
    pub refused: u64,
    pub goes_on: bool,
}

impl Tally {
    /// Creates a tally before the first step.
    pub fn new(goes_on: bool) -> Self {
        Tally {
            steps: 0,
            done: 0,
            moves: 0,
            refused: 0,
            goes_on,
        }
    }

    // Records the result of a step. Returns true if it could be done.
    fn note(&mut self, did: Did) -> Result<bool, Fault> {
        self.steps = self.steps.saturating_add(1);
        match did {
            Did::Done => {}
            Did::Still => return Ok(false),
            Did::NoMemory => {
                self.refused = self.refused.saturating_add(1);
                if self.goes_on {
                    return Ok(false);
                }
                return Err(Fault::Memory);
            }
        }
        self.done = self.done.saturating_add(1);
        Ok(true)
    }
}

/// The numbers of experiments and shards, and the weight of each kind of step.
#[derive(Clone, Copy)]
struct Odds {
    guests: u32,
    shards: u32,
    weights: [u32; 9],
}

// Returns the random stream of a list.
fn words_of(plan: Plan) -> ChaCha20Rng {
    let mut key = [0u8; 32];
    let mut rest = plan.seed;
    for i in 0..8 {
        key[i] = (rest % 256) as u8;
        rest /= 256;
    }
    let mut words = ChaCha20Rng::from_seed(key);
    words.set_stream(u64::from(plan.list));
    words
}

// Returns a random number below a maximum, or 0.
fn below(words: &mut ChaCha20Rng, most: u32) -> u32 {
    words.next_word() % most.max(1)
}

fn odds_of(words: &mut ChaCha20Rng, guests: usize) -> Odds {
    let shards = below(words, SHARDS).saturating_add(1);
    let weights = match below(words, 4) {
        0 => WEIGHTS[0],
        1 => WEIGHTS[1],
        2 => WEIGHTS[2],
        _ => WEIGHTS[3],
    };
    Odds {
        guests: name_of(guests),
        shards,
        weights,
    }
}

// Returns a random kind of step, 0 to 8.
fn kind(words: &mut ChaCha20Rng, weights: &[u32; 9]) -> usize {
    let mut sum = 0u32;
    for weight in weights {
        sum = sum.saturating_add(*weight);
    }
    let mut left = below(words, sum);
    for (kind, weight) in weights.iter().enumerate() {
        if left < *weight {
            return kind;
        }
        left = left.saturating_sub(*weight);
    }
    8
}

// Returns a random step. Some can't be done, because the name, shard or slot doesn't exist.
fn draw_step(words: &mut ChaCha20Rng, guests: &[Guest], odds: &Odds) -> Step {
    let name = below(words, odds.guests.saturating_add(1));
    let shard = below(words, odds.shards.saturating_add(1)) as usize;
    let from = below(words, odds.shards) as usize;
    let slot = below(words, odds.guests.saturating_add(1)) as usize;
    match kind(words, &odds.weights) {
        0 => return Step::Offer { shard, slot },
        1 => return Step::Retake { shard },
        2 => return Step::Adopt { shard, from },
        3 => return Step::Rebase { shard },
        4 => return Step::Admit { name, shard },
        5 => return Step::ReadLetter { name },
        6 => {
            if let Some(post) = next_post(guests, name) {
                return post;
            }
            return Step::Turn { shard };
        }
        7 => return Step::Poll { shard, slot },
        _ => return Step::Turn { shard },
    }
}

// Returns the name to which a step posts.
fn name_posted(step: &Step) -> Option<u32> {
    match step {
        Step::Post { name, .. } => Some(*name),
        _ => None,
    }
}

// Returns true if a step takes an experiment from a deque.
fn is_brought(step: &Step) -> bool {
    match step {
        Step::Retake { .. } => true,
        Step::Adopt { .. } => true,
        _ => false,
    }
}

// Performs a step. Returns true if it could be done.
fn make<W: Stage>(
    world: &mut W,
    guests: &mut [Guest],
    step: Step,
    tally: &mut Tally,
) -> Result<bool, Fault> {
    let posted = name_posted(&step);
    let brings = is_brought(&step);
    if !tally.note(world.makes(step))? {
        return Ok(false);
    }
    if let Some(name) = posted {
        was_posted(guests, name);
    }
    if brings {
        tally.moves = tally.moves.saturating_add(1);
    }
    Ok(true)
}

// Performs a list of steps, of which only the number of failed allocations is known afterwards.
fn make_list<W: Stage>(world: &mut W, steps: &[Step], tally: &mut Tally) -> Result<(), Fault> {
    let refused = world.runs(steps);
    tally.steps = tally.steps.saturating_add(steps.len() as u64);
    tally.refused = tally.refused.saturating_add(refused);
    if refused > 0 && !tally.goes_on {
        return Err(Fault::Memory);
    }
    Ok(())
}

// Performs a random step. If the run continues after failed allocations and the step is no post, it
// is performed in a list with a turn.
fn make_drawn<W: Stage>(
    world: &mut W,
    guests: &mut [Guest],
    step: Step,
    tally: &mut Tally,
) -> Result<(), Fault> {
    if tally.goes_on && name_posted(&step).is_none() {
        let list = [step, Step::Turn { shard: 0 }];
        return make_list(world, &list, tally);
    }
    make(world, guests, step, tally)?;
    Ok(())
}

// Registers a guest. Retries after a failed allocation, so that the names are those of the guests.
fn register<W: Stage>(world: &mut W, spec: &Spec, tally: &mut Tally) -> Result<(), Fault> {
    for _ in 0..3 {
        let step = Step::Registered(*spec);
        if tally.note(world.makes(step))? {
            return Ok(());
        }
    }
    Err(Fault::Memory)
}

// Posts the remaining commands of a name, as far as they may wait.
fn post_all<W: Stage>(
    world: &mut W,
    guests: &mut [Guest],
    name: u32,
    tally: &mut Tally,
) -> Result<(), Fault> {
    for _ in 0..MAIL {
        let Some(post) = next_post(guests, name) else {
            return Ok(());
        };
        if !make(world, guests, post, tally)? {
            return Ok(());
        }
    }
    Ok(())
}

// Performs steps that bring a name closer to its end. Returns false if the name has ended or
// doesn't exist.
fn help<W: Stage>(
    world: &mut W,
    guests: &mut [Guest],
    name: u32,
    tally: &mut Tally,
) -> Result<bool, Fault> {
    match world.place_of(name) {
        Some(Place::HandedOut) => {
            make(world, guests, Step::Admit { name, shard: 0 }, tally)?;
        }
        Some(Place::InDeque { shard }) => {
            make(world, guests, Step::Retake { shard }, tally)?;
        }
        Some(Place::Resident { shard, slot }) => {
            post_all(world, guests, name, tally)?;
            let list = [Step::Poll { shard, slot }, Step::Turn { shard }];
            make_list(world, &list, tally)?;
        }
        Some(Place::Ended) | None => return Ok(false),
    }
    Ok(true)
}

// Runs all names to their ends.
fn finish<W: Stage>(
    world: &mut W,
    guests: &mut [Guest],
    list: u32,
    tally: &mut Tally,
) -> Result<(), Fault> {
    for _ in 0..MAX_ROUNDS {
        let mut left = false;
        for index in 0..guests.len() {
            if help(world, guests, name_of(index), tally)? {
                left = true;
            }
        }
        if !left {
            return Ok(());
        }
    }
    Err(Fault::Unfinished(list))
}

// Returns the reports of all names, in their order. If the run continues after failed allocations,
// a line `halted` follows the report of an experiment that was halted.
fn reports<W: Stage>(
    alloc: Global,
    world: &W,
    guests: &[Guest],
    list: u32,
    goes_on: bool,
) -> Result<Vec<u8>, Fault> {
    let mut all = Vec::new(alloc);
    for (index, guest) in guests.iter().enumerate() {
        let Some(written) = world.report_of(alloc, name_of(index), guest.title())? else {
            return Err(Fault::Unfinished(list));
        };
        all.extend_from_slice(written.text.as_slice())?;
        if written.halted && goes_on {
            all.extend_from_slice(b"halted\n")?;
        } else if written.halted {
            return Err(Fault::Memory);
        }
    }
    Ok(all)
}

// Performs the steps of a list in a world, and then runs the world to its end.
fn lives<W: Stage>(
    world: &mut W,
    guests: &mut [Guest],
    plan: Plan,
    words: &mut ChaCha20Rng,
    odds: &Odds,
    tally: &mut Tally,
) -> Result<(), Fault> {
    for guest in guests.iter_mut() {
        guest.again();
    }
    for guest in guests.iter() {
        let spec = guest.spec();
        register(world, &spec, tally)?;
    }
    for _ in 0..plan.steps {
        let step = draw_step(words, guests, odds);
        make_drawn(world, guests, step, tally)?;
    }
    finish(world, guests, plan.list, tally)
}

/// Returns the reports of the scenario's experiments in a new world, in which the steps of a list
/// are performed.
pub fn left_by<W: Stage>(
    alloc: Global,
    guests: &mut [Guest],
    plan: Plan,
    tally: &mut Tally,
) -> Result<Vec<u8>, Fault> {
    let mut words = words_of(plan);
    let odds = odds_of(&mut words, guests.len());
    let mut world = W::build(alloc, odds.shards as usize)?;
    lives(&mut world, guests, plan, &mut words, &odds, tally)?;
    reports(alloc, &world, guests, plan.list, tally.goes_on)
}

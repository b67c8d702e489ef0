//! The maximum size of an experiment's listings, which no step bounds.

ghost use Rattle.std.specs.Prelude.{◌≡◌, ◌+◌, ◌*◌, min};
ghost use Rattle.explain.specs.Sizes.{is_masked, listed_by, listed_from, listed_bytes, rules_bytes, pipes_bytes, nothing};

use crate::doubt::{Doubt, Doubtful};
use emu_model::{Command, Mask, Timed};

/// The maximum lengths of the lines of a listing for a rule, a pipe and an instance, in bytes.
const RULE: u64 = 160;

const PIPE: u64 = 180;

const INSTANCE: u64 = 90;

/// The number of bytes up to which there is no warning.
const LONG: u64 = 100_000_000;

/// The objects created by the commands so far that a listing shows, and the maximum number of bytes
/// in the listings so far.
#[derive(Clone, Copy)]
pub struct Listed {
    pub adds: u64,
    pub configs: u64,
    pub masked: u64,
    pub bytes: u64,
}

fn is_masked(mask: &Mask) -> bool
    ensures { result ≡ is_masked mask.now }
{
    mask.proto != 0 || mask.src != 0 || mask.dst != 0 || mask.sport != 0 || mask.dport != 0
}

impl Listed {
    // Returns the state before the first command.
    fn nothing() -> Listed
        ensures { result ≡ nothing }
    {
        Listed {
            adds: 0,
            configs: 0,
            masked: 0,
            bytes: 0,
        }
    }

    // Returns the maximum size of `show` in bytes: at most 256 rules and the default.
    fn rules_bytes(&self) -> u64
        ensures { result ≡ rules_bytes self.now }
    {
        RULE * (self.adds.min(256) + 1)
    }

    // Returns the maximum size of `pipe show` in bytes: at most 64 pipes, and 256 instances of each
    // pipe that has a mask.
    fn pipes_bytes(&self) -> u64
        ensures { result ≡ pipes_bytes self.now }
    {
        let pipes = self.configs.min(64);
        let masked = self.masked.min(64);
        PIPE * pipes + INSTANCE * (pipes + 255 * masked)
    }

    fn with(&self, bytes: u64) -> Listed
        ensures { result ≡ record self.now {
          bytes = min (self.now.bytes + bytes) 18446744073709551615;
        } }
    {
        Listed {
            bytes: self.bytes.saturating_add(bytes),
            ..*self
        }
    }

    fn after(&self, command: &Command) -> Listed
        ensures { result ≡ listed_by command.now self.now }
    {
        match command {
            Command::Add(_) => Listed {
                adds: self.adds.saturating_add(1),
                ..*self
            },
            Command::Config { config, .. } => Listed {
                configs: self.configs.saturating_add(1),
                masked: self
                    .masked
                    .saturating_add(u64::from(is_masked(&config.mask))),
                ..*self
            },
            Command::Show => self.with(self.rules_bytes()),
            Command::PipeShow => self.with(self.pipes_bytes()),
            _ => *self,
        }
    }
}

/// Returns the maximum number of bytes in the listings of these commands. Our choice.
pub fn listed_bytes(commands: &[Timed]) -> u64
    ensures { result ≡ listed_bytes commands.now }
{
    let mut listed = Listed::nothing();
    for timed in commands {
        listed = listed.after(&timed.command);
    }
    listed.bytes
}

fn is_listing(command: &Command) -> bool {
    match command {
        Command::Show | Command::PipeShow => true,
        _ => false,
    }
}

/// Returns the first command that lists, if the listings may have more than 100 MB.
pub fn long_listings(commands: &[Timed]) -> Option<Doubtful> {
    let bytes = listed_bytes(commands);
    if bytes <= LONG {
        return None;
    }
    let place = commands
        .iter()
        .position(|timed| is_listing(&timed.command))?;
    Some(Doubtful {
        command: place as u64,
        doubt: Doubt::LongListings { bytes },
    })
}

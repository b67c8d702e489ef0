//! Commands that do what they say but are probably not meant: the kinds, and the text that is
//! printed for each.

use crate::refused::Stand;
use crate::show_findings::put_row;
use emu_model::PipeNumber;
use itoa::Buffer as Digits;
use std::alloc::{AllocError, Global};

/// An option of a pipe that a later `config` may leave out.
#[derive(Clone, Copy, PartialEq)]
pub enum Setting {
    Bw,
    Delay,
    Queue,
    Plr,
}

/// A property of a command that is probably not meant. Times are in nanoseconds, sizes in bytes.
#[derive(Clone, Copy, PartialEq)]
pub enum Doubt {
    /// The command's time looks like milliseconds.
    EarlyMoment(u64),
    /// A train's gap looks like milliseconds.
    ShortGap(u64),
    /// The last packet of a train is due at `last`, and the experiment ends before that.
    CutTrain {
        last: u64,
        end: u64,
    },
    /// A rate (bit/s) looks as if its unit was left out.
    LowRate(u64),
    /// A pipe's delay is as long as the experiment.
    LongDelay {
        delay: u64,
        end: u64,
    },
    /// A pipe always loses all packets.
    LosesAll(PipeNumber),
    /// A receiver's window is smaller than a segment.
    SmallWindow {
        window: u64,
        smss: u64,
    },
    /// A later `config` of a pipe leaves out an option that every earlier one gave.
    Forgets {
        pipe: PipeNumber,
        setting: Setting,
    },
    /// A rate of a pipe lasts for `lasts` ns, and a packet of `size` bytes takes `time` ns at it.
    Outage {
        pipe: PipeNumber,
        size: u64,
        time: u64,
        lasts: u64,
    },
    /// The segments and the acknowledgements of a flow wait in one pipe.
    SharedPipe(PipeNumber),
    /// No packet meets a rule.
    UnusedRule,
    /// No packet enters a pipe.
    UnusedPipe(PipeNumber),
    /// The listings of the experiment may have up to this many bytes.
    LongListings {
        bytes: u64,
    },
    /// The experiment ended when `acked` of the `bytes` of a flow were acknowledged.
    Unfinished {
        acked: u64,
        bytes: u64,
    },
    /// A flow was limited by its window, and not by cwnd, for this share of its time (%).
    WindowLimited {
        window: u64,
        share: u64,
    },
}

/// A doubt, and the number of its command, from 0.
#[derive(Clone, Copy, PartialEq)]
pub struct Doubtful {
    pub command: u64,
    pub doubt: Doubt,
}

/// The maximum number of warnings of one kind for an experiment.
const MAX_OF_A_KIND: usize = 10;

/// Returns the first ten of each kind.
pub fn first_of_each(alloc: Global, doubts: &[Doubtful]) -> Result<Vec<Doubtful>, AllocError> {
    let mut out: Vec<Doubtful> = Vec::new(alloc);
    for doubtful in doubts {
        let kind = kind_word(&doubtful.doubt);
        let before = out.iter().filter(|told| kind_word(&told.doubt) == kind);
        if before.count() < MAX_OF_A_KIND {
            out.push(*doubtful)?;
        }
    }
    Ok(out)
}

fn put(out: &mut Vec<u8>, text: &str) -> Result<(), AllocError> {
    out.extend_from_slice(text.as_bytes())
}

fn put_number(out: &mut Vec<u8>, number: u64) -> Result<(), AllocError> {
    let mut digits = Digits::new();
    out.extend_from_slice(digits.format(number).as_bytes())
}

// Appends a text with a number between two parts.
fn put_with(out: &mut Vec<u8>, before: &str, number: u64, behind: &str) -> Result<(), AllocError> {
    put(out, before)?;
    put_number(out, number)?;
    put(out, behind)
}

// Appends a time in the largest unit that shows it exactly.
fn put_time(out: &mut Vec<u8>, time: u64) -> Result<(), AllocError> {
    if time % 1_000_000_000 == 0 {
        put_with(out, "", time / 1_000_000_000, " s")
    } else if time % 1_000_000 == 0 {
        put_with(out, "", time / 1_000_000, " ms")
    } else if time % 1_000 == 0 {
        put_with(out, "", time / 1_000, " us")
    } else {
        put_with(out, "", time, " ns")
    }
}

fn setting_word(setting: Setting) -> &'static str {
    match setting {
        Setting::Bw => "bw",
        Setting::Delay => "delay",
        Setting::Queue => "queue",
        Setting::Plr => "plr",
    }
}

// Returns the value of an option that is left out.
fn default_word(setting: Setting) -> &'static str {
    match setting {
        Setting::Bw => "no limit",
        Setting::Delay => "0",
        Setting::Queue => "50 packets",
        Setting::Plr => "0",
    }
}

fn kind_word(doubt: &Doubt) -> &'static str {
    match doubt {
        Doubt::EarlyMoment(_) | Doubt::ShortGap(_) | Doubt::LowRate(_) => "units",
        Doubt::LongDelay { .. } => "units",
        Doubt::CutTrain { .. } | Doubt::Unfinished { .. } => "unsent",
        Doubt::LosesAll(_) => "plr",
        Doubt::SmallWindow { .. } => "window",
        Doubt::Forgets { .. } => "reconfigured",
        Doubt::Outage { .. } => "outage",
        Doubt::SharedPipe(_) => "half-duplex",
        Doubt::UnusedRule | Doubt::UnusedPipe(_) => "unused",
        Doubt::WindowLimited { .. } => "window-limited",
        Doubt::LongListings { .. } => "size",
    }
}

fn put_cut(out: &mut Vec<u8>, last: u64, end: u64) -> Result<(), AllocError> {
    put_with(
        out,
        "its last packet is due at ",
        last,
        " ns, and `end` comes at ",
    )?;
    put_number(out, end)?;
    put(out, " ns")
}

fn put_long(out: &mut Vec<u8>, delay: u64, end: u64) -> Result<(), AllocError> {
    put(out, "its delay of ")?;
    put_time(out, delay)?;
    put_with(
        out,
        " is as long as the experiment, whose `end` comes at ",
        end,
        " ns: nothing leaves the pipe",
    )
}

fn put_forgotten(out: &mut Vec<u8>, pipe: PipeNumber, setting: Setting) -> Result<(), AllocError> {
    put(out, "it sets `")?;
    put(out, setting_word(setting))?;
    put_with(
        out,
        "` of pipe ",
        u64::from(pipe.get()),
        " back to the default, ",
    )?;
    put(out, default_word(setting))
}

// Appends the meaning of a doubt about a flow after a run.
fn put_of_run(out: &mut Vec<u8>, doubt: &Doubt) -> Result<(), AllocError> {
    match doubt {
        Doubt::Unfinished { acked, bytes } => {
            put_with(out, "the experiment ended when ", *acked, " of its ")?;
            put_with(out, "", *bytes, " bytes were acknowledged")
        }
        Doubt::WindowLimited { window, share } => {
            put_with(
                out,
                "its window of ",
                *window,
                " bytes, and not the network, held it back for ",
            )?;
            put_with(out, "", *share, " % of its time")
        }
        _ => Ok(()),
    }
}

// Appends the meaning of a rate that ends before one packet is sent.
fn put_outage(
    out: &mut Vec<u8>,
    pipe: PipeNumber,
    size: u64,
    time: u64,
    lasts: u64,
) -> Result<(), AllocError> {
    put_with(
        out,
        "this rate of pipe ",
        u64::from(pipe.get()),
        " lasts for ",
    )?;
    put_time(out, lasts)?;
    put_with(out, ", but a packet of ", size, " bytes takes ")?;
    put_time(out, time)?;
    put(
        out,
        " and keeps its finish time, so the link is busy until then",
    )
}

fn put_meaning(out: &mut Vec<u8>, doubt: &Doubt) -> Result<(), AllocError> {
    match doubt {
        Doubt::EarlyMoment(moment) => put_with(
            out,
            "moments are nanoseconds, and this one is ",
            *moment,
            " ns",
        ),
        Doubt::ShortGap(gap) => {
            put_with(
                out,
                "gaps are nanoseconds: with ",
                *gap,
                " ns the train is faster than any pipe",
            )
        }
        Doubt::CutTrain { last, end } => put_cut(out, *last, *end),
        Doubt::LowRate(rate) => put_with(out, "its rate is ", *rate, " bit/s"),
        Doubt::LongDelay { delay, end } => put_long(out, *delay, *end),
        Doubt::LosesAll(pipe) => {
            put_with(
                out,
                "pipe ",
                u64::from(pipe.get()),
                " loses every packet, from the beginning to the end",
            )
        }
        Doubt::SmallWindow { window, smss } => {
            put_with(
                out,
                "its window of ",
                *window,
                " bytes has no room for a segment of ",
            )?;
            put_with(out, "", *smss, " bytes, so it sends nothing")
        }
        Doubt::Forgets { pipe, setting } => put_forgotten(out, *pipe, *setting),
        Doubt::Outage {
            pipe,
            size,
            time,
            lasts,
        } => put_outage(out, *pipe, *size, *time, *lasts),
        Doubt::SharedPipe(pipe) => {
            put_with(
                out,
                "its acknowledgements wait behind its segments, in pipe ",
                u64::from(pipe.get()),
                "",
            )
        }
        Doubt::UnusedRule => put(out, "no packet meets this rule"),
        Doubt::UnusedPipe(pipe) => put_with(
            out,
            "no packet comes to pipe ",
            u64::from(pipe.get()),
            "",
        ),
        Doubt::LongListings { bytes } => put_with(
            out,
            "the listings of its experiment may have up to ",
            *bytes,
            " bytes",
        ),
        Doubt::Unfinished { .. } | Doubt::WindowLimited { .. } => put_of_run(out, doubt),
    }
}

// Appends a number of milliseconds and the same time in nanoseconds.
fn put_milliseconds(out: &mut Vec<u8>, number: u64, mark: &str) -> Result<(), AllocError> {
    put_with(out, "", number, " ms is ")?;
    put_with(out, mark, number.saturating_mul(1_000_000), "")
}

fn put_hint(out: &mut Vec<u8>, doubt: &Doubt) -> Result<(), AllocError> {
    match doubt {
        Doubt::EarlyMoment(moment) => put_milliseconds(out, *moment, "@"),
        Doubt::ShortGap(gap) => put_milliseconds(out, *gap, ""),
        Doubt::CutTrain { .. } => put(
            out,
            "a later `end`, or a smaller `count` or `gap`, lets the train end",
        ),
        Doubt::LowRate(_) => put(out, "is a unit missing, as in 10Mbit/s?"),
        Doubt::LongDelay { .. } => put(out, "moments are nanoseconds: 1 s is @1000000000"),
        Doubt::LosesAll(_) => put(out, "`plr` is a fraction: 1 is all, and 0.01 is 1 %"),
        Doubt::SmallWindow { .. } => put(
            out,
            "`window` is in bytes, at most 65535, which it is if left out",
        ),
        Doubt::Forgets { .. } => {
            put(
                out,
                "a `config` sets all options: repeat those that stay (for an outage write `plr 1`)",
            )
        }
        Doubt::Outage { .. } => put(
            out,
            "for an outage write `plr 1`, or use tools/rate-trace with --outage",
        ),
        Doubt::SharedPipe(_) => {
            put(
                out,
                "a pipe is one way: give the way back a rule and a pipe of its own",
            )
        }
        Doubt::UnusedRule => {
            put(
                out,
                "an earlier rule decides, or its words match nobody who sends",
            )
        }
        Doubt::UnusedPipe(_) => put(
            out,
            "no rule hands it a packet: an earlier rule decides, or none names it",
        ),
        Doubt::LongListings { .. } => put(
            out,
            "`pipe show` lists each instance of each pipe: list less often; `--max-output BYTES` bounds a report",
        ),
        Doubt::Unfinished { .. } => put(
            out,
            "a later `end` lets it finish, if its packets get through; `segments 1000000` has no end",
        ),
        Doubt::WindowLimited { .. } => {
            put(
                out,
                "a longer queue gives it nothing more: several flows fill a path that one can't",
            )
        }
    }
}

/// Returns the text of a doubt about a line: `line L: KIND`, the line, its experiment, the meaning
/// and what to do. The text is ASCII, with a line feed at the end of each row. Our choice.
pub fn show_doubt(alloc: Global, doubt: &Doubt, stand: &Stand) -> Result<Vec<u8>, AllocError> {
    let mut out = Vec::new(alloc);
    put_with(&mut out, "line ", stand.number, ": ")?;
    put(&mut out, kind_word(doubt))?;
    put(&mut out, "\n")?;
    put_row(&mut out, "  ", stand.line)?;
    put_row(&mut out, "  experiment: ", stand.experiment)?;
    put(&mut out, "  means: ")?;
    put_meaning(&mut out, doubt)?;
    put(&mut out, "\n  hint: ")?;
    put_hint(&mut out, doubt)?;
    put(&mut out, "\n")?;
    Ok(out)
}

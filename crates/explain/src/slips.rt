//! Hints for words of other programs and for typing errors. Our choice, in the terms of ipfw(8).

use control_words::is;

/// A word that people write, and the hint for it.
pub type Says = (&'static str, &'static str);

const EMPTY: &str = "a scenario begins with no rules and no pipes: leave this line out";

const NO_IPFW: &str = "leave `ipfw` out: @0 pipe 1 config bw 10Mbit/s";

const NO_STATE: &str = "packets here have no state: write a second rule for the way back";

const NO_SUCH_ACTION: &str =
    "a rule allows, denies, counts, skips or hands to a pipe: nothing else is here";

const ORDER: &str = "the action stands before the protocol: add 100 pipe 1 ip from any to any";

const NO_OPTION: &str = "this option of dummynet isn't here: leave it out";

/// The hint for a link of other programs.
pub const LINK: &str =
    "a link is a pipe, and a rule hands packets to it: @0 pipe 1 config bw 10Mbit/s delay 20";

const LASTS: &str = "an experiment goes on to its last command: @5000000000 end";

const WAITS: &str = "nothing waits here: each command says its own moment, as @5000000000 end";

/// The hint for a time.
pub const MOMENT: &str =
    "a moment is a whole number of nanoseconds without a unit: 1.5 ms is @1500000";

const EXPERIMENT: &str =
    "an experiment begins so, without a moment: experiment two-flows seed 1 budget 1000";

const SHELL: &str =
    "this line is for the shell: leave it out; a scenario has experiments and their commands alone";

const PROGRAM: &str =
    "this line is of a program: a scenario has experiments and their commands alone";

const NO_SUCH_DAMAGE: &str =
    "packets are lost here, by `plr`, and never duplicated, reordered or corrupted: leave it out";

const RULE: &str = "a rule begins with `add` and its number: add 100 allow ip from any to any";

/// The hints where a line's first word is expected.
pub const FIRSTS: [Says; 17] = [
    ("tc", LINK),
    ("$ns", LINK),
    ("netem", LINK),
    ("sleep", WAITS),
    ("wait", WAITS),
    ("end", "the moment stands before it: @5000000000 end"),
    ("exp", EXPERIMENT),
    ("experiment:", EXPERIMENT),
    ("seed", EXPERIMENT),
    ("seed:", EXPERIMENT),
    ("name:", EXPERIMENT),
    ("class", LINK),
    ("$", SHELL),
    ("dnlab", SHELL),
    ("./dnlab", SHELL),
    ("import", PROGRAM),
    ("from", PROGRAM),
];

/// The word that begins an experiment, for typing errors.
pub const OWN_FIRSTS: [Says; 1] = [("experiment", "did you mean `experiment`?")];

/// The word after an experiment's name, for typing errors.
pub const OWN_SEEDS: [Says; 1] = [("seed", "did you mean `seed`?")];

/// The hints where `steps` or the end of an experiment's line is expected.
pub const FOR_STEPS: [Says; 5] = [
    ("duration", LASTS),
    ("time", LASTS),
    ("until", LASTS),
    ("for", LASTS),
    ("{", LASTS),
];

/// The hints where a command's first word is expected.
pub const VERBS: [Says; 41] = [
    ("queue", "ipfw's queue, sched, table and nat aren't here"),
    ("sched", "ipfw's queue, sched, table and nat aren't here"),
    ("table", "ipfw's queue, sched, table and nat aren't here"),
    ("nat", "ipfw's queue, sched, table and nat aren't here"),
    ("list", "rules are listed by `show`"),
    ("send", "a single packet is sent by `inject`"),
    ("packet", "a single packet is sent by `inject`"),
    ("ipfw", NO_IPFW),
    ("/sbin/ipfw", NO_IPFW),
    ("sudo", NO_IPFW),
    ("flush", EMPTY),
    ("-f", EMPTY),
    ("-q", EMPTY),
    ("zero", "counters begin at 0: leave this line out"),
    ("resetlog", "there is no log here: leave this line out"),
    (
        "set",
        "there are no sets of rules here: leave this line out",
    ),
    (
        "enable",
        "it is `one_pass 1` or `one_pass 0`; nothing else is enabled or disabled here",
    ),
    (
        "disable",
        "it is `one_pass 1` or `one_pass 0`; nothing else is enabled or disabled here",
    ),
    ("sysctl", "a scenario says it itself: @0 one_pass 0"),
    (
        "net.inet.ip.fw.one_pass=0",
        "a scenario says it itself: @0 one_pass 0",
    ),
    (
        "net.inet.ip.fw.one_pass=1",
        "a scenario says it itself: @0 one_pass 1",
    ),
    ("one_pass=0", "a space stands there, no =: one_pass 0"),
    ("one_pass=1", "a space stands there, no =: one_pass 1"),
    (
        "config",
        "the word `pipe` and a number stand before it: pipe 1 config",
    ),
    ("netem", LINK),
    ("qdisc", LINK),
    ("tc", LINK),
    ("link", LINK),
    ("sleep", WAITS),
    ("wait", WAITS),
    ("ns", MOMENT),
    ("us", MOMENT),
    ("ms", MOMENT),
    ("s", MOMENT),
    ("sec", MOMENT),
    ("experiment", EXPERIMENT),
    ("allow", RULE),
    ("deny", RULE),
    ("rule", RULE),
    ("class", LINK),
    (
        "print",
        "the report has every packet; rules are listed by `show`, and pipes by `pipe show`",
    ),
];

/// The verbs themselves, for typing errors.
pub const OWN_VERBS: [Says; 11] = [
    ("add", "did you mean `add`?"),
    ("delete", "did you mean `delete`?"),
    ("pipe", "did you mean `pipe`?"),
    ("show", "did you mean `show`?"),
    ("inject", "did you mean `inject`?"),
    ("train", "did you mean `train`?"),
    ("flow", "did you mean `flow`?"),
    ("stop", "did you mean `stop`?"),
    ("one_pass", "did you mean `one_pass`?"),
    ("trace", "did you mean `trace`?"),
    ("end", "did you mean `end`?"),
];

/// The hints where a rule's action is expected.
pub const ACTIONS: [Says; 26] = [
    ("accept", "it is spelled `allow` here"),
    ("pass", "it is spelled `allow` here"),
    ("permit", "it is spelled `allow` here"),
    ("drop", "it is spelled `deny` here, and nothing is answered"),
    (
        "reject",
        "it is spelled `deny` here, and nothing is answered",
    ),
    (
        "reset",
        "it is spelled `deny` here, and nothing is answered",
    ),
    (
        "unreach",
        "it is spelled `deny` here, and nothing is answered",
    ),
    ("queue", "dummynet's queues aren't here, only pipes"),
    ("check-state", NO_STATE),
    ("divert", NO_SUCH_ACTION),
    ("tee", NO_SUCH_ACTION),
    ("fwd", NO_SUCH_ACTION),
    ("nat", NO_SUCH_ACTION),
    ("call", NO_SUCH_ACTION),
    ("return", NO_SUCH_ACTION),
    ("netgraph", NO_SUCH_ACTION),
    ("setfib", NO_SUCH_ACTION),
    (
        "log",
        "there is no log here: leave `log` out; the report has every packet",
    ),
    (
        "set",
        "there are no sets of rules here: leave `set` and its number out",
    ),
    (
        "prob",
        "a share of the packets is dropped by a pipe's `plr`, not by a rule's `prob`",
    ),
    ("ip", ORDER),
    ("tcp", ORDER),
    ("udp", ORDER),
    ("all", ORDER),
    (
        "from",
        "the action and the protocol stand before it: add 100 allow ip from any to any",
    ),
    (
        "any",
        "the action and the protocol stand before it: add 100 allow ip from any to any",
    ),
];

/// The actions themselves, for typing errors.
pub const OWN_ACTIONS: [Says; 5] = [
    ("allow", "did you mean `allow`?"),
    ("deny", "did you mean `deny`?"),
    ("count", "did you mean `count`?"),
    ("skipto", "did you mean `skipto`?"),
    ("pipe", "did you mean `pipe`?"),
];

/// The hints where an option of a pipe is expected.
pub const OPTIONS: [Says; 35] = [
    ("target", "`target` and `interval` directly follow `codel`"),
    (
        "interval",
        "`target` and `interval` directly follow `codel`",
    ),
    ("src-ip", "fields directly follow `mask`, and not `all`"),
    ("dst-ip", "fields directly follow `mask`, and not `all`"),
    ("proto", "fields directly follow `mask`, and not `all`"),
    ("src-port", "fields directly follow `mask`, and not `all`"),
    ("dst-port", "fields directly follow `mask`, and not `all`"),
    ("ecn", "CoDel marks no packets here: ECN isn't there"),
    ("noecn", "CoDel marks no packets here: ECN isn't there"),
    ("red", "the disciplines here are droptail and codel"),
    ("gred", "the disciplines here are droptail and codel"),
    ("pie", "the disciplines here are droptail and codel"),
    ("fq_codel", "the disciplines here are droptail and codel"),
    ("fq_pie", "the disciplines here are droptail and codel"),
    ("loss", "it is spelled `plr` here: plr 0.05"),
    ("rate", "it is spelled `bw` here: bw 10Mbit/s"),
    ("bandwidth", "it is spelled `bw` here: bw 10Mbit/s"),
    ("latency", "it is spelled `delay` here: delay 20ms"),
    ("limit", "it is spelled `queue` here: queue 50"),
    ("buffer", "it is spelled `queue` here: queue 50"),
    ("slots", "it is spelled `queue` here: queue 50"),
    (
        "jitter",
        "a pipe's delay is the same for each packet: there is no jitter",
    ),
    ("buckets", NO_OPTION),
    ("burst", NO_OPTION),
    ("weight", NO_OPTION),
    ("type", NO_OPTION),
    ("noerror", NO_OPTION),
    ("profile", NO_OPTION),
    ("flow-id", NO_OPTION),
    ("sched", NO_OPTION),
    ("DataRate", "it is spelled `bw` here: bw 10Mbit/s"),
    ("MaxSize", "it is spelled `queue` here: queue 50"),
    ("duplicate", NO_SUCH_DAMAGE),
    ("reorder", NO_SUCH_DAMAGE),
    ("corrupt", NO_SUCH_DAMAGE),
];

/// The options themselves, for typing errors.
pub const OWN_OPTIONS: [Says; 7] = [
    ("delay", "did you mean `delay`?"),
    ("queue", "did you mean `queue`?"),
    ("plr", "did you mean `plr`?"),
    ("mask", "did you mean `mask`?"),
    ("droptail", "did you mean `droptail`?"),
    ("codel", "did you mean `codel`?"),
    ("bw", "did you mean `bw`?"),
];

/// The options of a flow, for typing errors.
pub const OWN_FLOW_OPTIONS: [Says; 3] = [
    ("ssthresh", "did you mean `ssthresh`?"),
    ("window", "did you mean `window`?"),
    ("rto", "did you mean `rto`?"),
];

/// The hints for the name of a command where a number is expected.
pub const FOR_NUMBERS: [Says; 8] = [
    ("flush", EMPTY),
    ("list", "all pipes are listed at once: pipe show"),
    ("on", "1 is on, and 0 is off"),
    ("off", "1 is on, and 0 is off"),
    ("config", "the number stands before `config`: pipe 1 config"),
    (
        "allow",
        "a rule's number isn't chosen for you: add 100 allow ip from any to any",
    ),
    (
        "deny",
        "a rule's number isn't chosen for you: add 100 deny ip from any to any",
    ),
    (
        "pipe",
        "a rule's number isn't chosen for you: add 100 pipe 1 ip from any to any",
    ),
];

/// Returns the hint for a word in the table.
pub fn hint_for(table: &[Says], word: &[u8]) -> Option<&'static str> {
    for says in table {
        if is(word, says.0) {
            return Some(says.1);
        }
    }
    None
}

/// Returns the hint for a word that has a typing error of a word in the table: a wrong, missing or
/// extra letter, two swapped letters, or another ending after the first three letters.
pub fn hint_for_typo(table: &[Says], word: &[u8]) -> Option<&'static str> {
    if word.len() < 2 {
        return None;
    }
    for says in table {
        if is_near(word, says.0.as_bytes()) {
            return Some(says.1);
        }
    }
    None
}

// Returns the number of letters in the common prefix.
fn same_front(first: &[u8], second: &[u8]) -> usize {
    let mut count = 0usize;
    for (a, b) in first.iter().zip(second) {
        if a != b {
            return count;
        }
        count = count.saturating_add(1);
    }
    count
}

// Returns the number of letters in the common suffix.
fn same_back(first: &[u8], second: &[u8]) -> usize {
    let mut count = 0usize;
    for (a, b) in first.iter().rev().zip(second.iter().rev()) {
        if a != b {
            return count;
        }
        count = count.saturating_add(1);
    }
    count
}

// Returns true if the first two letters are swapped.
fn are_turned(first: &[u8], second: &[u8]) -> bool {
    match (first, second) {
        ([a, b, ..], [c, d, ..]) => *a == *d && *b == *c,
        _ => false,
    }
}

// Returns the rest of a word from a position on, which is empty past its end.
fn rest_of(word: &[u8], from: usize) -> &[u8] {
    let start = from.min(word.len());
    &word[start..]
}

// Returns true if two words differ by one typing error or in their endings, and are not equal.
fn is_near(word: &[u8], known: &[u8]) -> bool {
    let front = same_front(word, known);
    let first = rest_of(word, front);
    let second = rest_of(known, front);
    let back = same_back(first, second);
    let wrong = first.len().saturating_sub(back);
    let right = second.len().saturating_sub(back);
    if wrong <= 1 && right <= 1 {
        return wrong + right > 0;
    }
    if front >= 3 && wrong <= 3 && right <= 2 {
        return true;
    }
    wrong == 2 && right == 2 && are_turned(first, second)
}

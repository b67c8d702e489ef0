//! Hints for words that people write in place of others.

use crate::slips::{
    ACTIONS, FIRSTS, FOR_NUMBERS, FOR_STEPS, LINK, MOMENT, OPTIONS, OWN_ACTIONS, OWN_FIRSTS,
    OWN_FLOW_OPTIONS, OWN_OPTIONS, OWN_SEEDS, OWN_VERBS, VERBS, hint_for, hint_for_typo,
};
use control::{
    Expected, FlowWord, Form, Keyword, PipeWord, RuleWord, TrainWord, stood_before, value_at,
};
use control_words::{addresses, is};

fn has(word: &[u8], byte: u8) -> bool {
    word.iter().any(|b| *b == byte)
}

fn has_capital(word: &[u8]) -> bool {
    word.iter().any(|b| b.is_ascii_uppercase())
}

fn begins_with_digit(word: &[u8]) -> bool {
    match word.first() {
        None => false,
        Some(byte) => byte.is_ascii_digit(),
    }
}

fn has_letter(word: &[u8]) -> bool {
    word.iter().any(|b| b.is_ascii_alphabetic())
}

fn has_leading_zero(word: &[u8]) -> bool {
    match word {
        [b'0', second, ..] => second.is_ascii_digit(),
        _ => false,
    }
}

fn is_base_16(word: &[u8]) -> bool {
    match word {
        [b'0', b'x' | b'X', ..] => true,
        _ => false,
    }
}

// Returns true if a number has a separator between its digits, as in 1_000 and 1'000.
fn is_grouped(word: &[u8]) -> bool {
    begins_with_digit(word) && (has(word, b'_') || has(word, b'\''))
}

fn has_sign(word: &[u8]) -> bool {
    word.first() == Some(&b'-') || word.first() == Some(&b'+')
}

fn ends_with(word: &[u8], unit: &str) -> bool {
    word.ends_with(unit.as_bytes())
}

/// The maximum number of digits in a number.
const MAX_DIGITS: usize = 20;

fn has_too_many_digits(word: &[u8]) -> bool {
    let digits = word.iter().take_while(|b| b.is_ascii_digit()).count();
    digits > MAX_DIGITS
}

const ZERO: &str = "a number doesn't begin with 0: 007 is 7";

const SIGN: &str = "a number has no sign";

const TOO_MANY_DIGITS: &str = "a number has at most 20 digits";

const COMMA: &str = "a number has no comma in it";

const BETWEEN: &str = "a number is digits alone, with nothing between them";

const BASE_10: &str = "a number is written in base 10: 0x10 is 16";

const NO_CODE: &str =
    "each line is one command, its words with spaces between: @0 pipe 1 config bw 10Mbit/s";

const NO_SEMICOLON: &str = "no semicolon: each command has a line of its own";

const LOWER: &str = "words are in lower case";

const COMMENT: &str = "a comment begins with #, and has a line of its own";

const NO_VALUE: &str = "the value of the word before is missing: delay 20 queue 50";

const TEMPLATE: &str = "this is a template: tools/sweep fills in its settings";

const BOUNDS: &str = "bounds aren't part of a scenario: tools/expect judges a report by them";

// Returns the hint for a mistake that any number can have, whatever its unit is.
fn digits_hint(word: &[u8]) -> Option<&'static str> {
    if has_sign(word) {
        Some(SIGN)
    } else if has_too_many_digits(word) {
        Some(TOO_MANY_DIGITS)
    } else if has(word, b',') {
        Some(COMMA)
    } else if is_grouped(word) {
        Some(BETWEEN)
    } else if has_leading_zero(word) {
        Some(ZERO)
    } else {
        None
    }
}

fn number_hint(word: &[u8]) -> Option<&'static str> {
    if hint_for(&FOR_NUMBERS, word).is_some() {
        hint_for(&FOR_NUMBERS, word)
    } else if has_sign(word) {
        Some(SIGN)
    } else if addresses::address(word).is_some() {
        Some("an address stands where a number is wanted: is a port missing, or a flow's number?")
    } else if is_base_16(word) {
        Some(BASE_10)
    } else if has(word, b',') || is_grouped(word) {
        Some(BETWEEN)
    } else if has(word, b'^') || has(word, b'*') {
        Some("a number is written out: 10^6 is 1000000")
    } else if has(word, b'.') {
        Some("whole numbers only: no point")
    } else if begins_with_digit(word) && has_letter(word) {
        Some("digits alone: neither a unit nor an exponent stands here")
    } else if has_letter(word) {
        Some("a number stands here, not a word")
    } else if has_leading_zero(word) {
        Some(ZERO)
    } else if has_too_many_digits(word) {
        Some(TOO_MANY_DIGITS)
    } else {
        None
    }
}

fn is_foreign_comment(word: &[u8]) -> bool {
    match word.first() {
        Some(b'/' | b';' | b'-' | b'%' | b'!') => true,
        _ => false,
    }
}

// Returns true if a word is from a programming language, or from JSON.
fn is_code(word: &[u8]) -> bool {
    has(word, b'(') || has(word, b'{') || has(word, b'}') || has(word, b'"')
}

// Returns true if a word opens a placeholder or a tag of a Jinja template.
fn is_of_a_template(word: &[u8]) -> bool {
    match word {
        [b'{', b'{' | b'%', ..] => true,
        _ => false,
    }
}

// Returns true if a word has the form of the experiment and the row of a bound.
fn is_of_bounds(word: &[u8]) -> bool {
    has(word, b'/') && word.first().is_some_and(|b| b.is_ascii_lowercase())
}

// Returns true if digits are directly followed by a word longer than the two letters of a unit.
fn is_run_together(word: &[u8]) -> bool {
    let letters = word.iter().filter(|b| b.is_ascii_lowercase()).count();
    begins_with_digit(word) && letters > 2
}

// Returns true if a line begins like a shell command.
fn is_of_ipfw(word: &[u8]) -> bool {
    is(word, "ipfw") || is(word, "/sbin/ipfw") || is(word, "sudo") || word.first() == Some(&b'$')
}

fn moment_hint(word: &[u8]) -> Option<&'static str> {
    match word {
        [b'@'] => Some("no space between @ and the moment: @0"),
        [b'@', number @ ..] => {
            if is_base_16(number) {
                Some(BASE_10)
            } else if number.first() == Some(&b'+') {
                Some("a moment is counted from the experiment's begin, not from the command before")
            } else if is_run_together(number) {
                Some("a space stands between the moment and the command: @0 show")
            } else if number.last() == Some(&b':') {
                Some("nothing but a space follows a moment: @0 show")
            } else if has(number, b'.') || has(number, b':') || has_letter(number) {
                Some(MOMENT)
            } else {
                number_hint(number)
            }
        }
        _ => {
            if hint_for(&FIRSTS, word).is_some() {
                hint_for(&FIRSTS, word)
            } else if word.first() == Some(&b'`') {
                Some("Markdown's ``` isn't part of a scenario: copy the lines between")
            } else if word.starts_with(b"mm-") {
                Some(LINK)
            } else if is_of_bounds(word) {
                Some(BOUNDS)
            } else if is_of_ipfw(word) {
                Some("leave `ipfw` out, and put the moment in front: @0 pipe 1 config bw 10Mbit/s")
            } else if is_code(word) {
                Some(NO_CODE)
            } else if begins_with_digit(word) {
                Some("a moment has @ in front of it: @0; a report's lines aren't commands")
            } else if is_foreign_comment(word) {
                Some("a comment begins with #")
            } else if has_capital(word) {
                Some(LOWER)
            } else {
                hint_for_typo(&OWN_FIRSTS, word).or(Some(
                    "a command has its moment in front of it: @0 pipe 1 config bw 10Mbit/s",
                ))
            }
        }
    }
}

// Returns true if a rate is written with an exponent, as in 1e6.
fn has_exponent(word: &[u8]) -> bool {
    begins_with_digit(word) && has(word, b'e') && !has(word, b'/')
}

fn rate_unit_hint(word: &[u8]) -> &'static str {
    if ends_with(word, "B/s") || ends_with(word, "Bps") {
        "bytes a second are spelled out: 20MB/s is 20MByte/s"
    } else if has_exponent(word) {
        "no exponent: 1e6 is 1Mbit/s"
    } else if !begins_with_digit(word) {
        "a rate is a number with its unit; leave `bw` out where there is no limit"
    } else if has(word, b'.') {
        "whole numbers only: 1.5 Mbit/s is 1500Kbit/s"
    } else {
        "units are spelled in full, and their case counts: 10Mbps is 10Mbit/s"
    }
}

// Returns true if the word in the place of an option's value is the name of an option.
fn is_option(word: &[u8]) -> bool {
    OWN_OPTIONS.iter().any(|says| is(word, says.0))
}

fn rate_hint(word: &[u8]) -> Option<&'static str> {
    digits_hint(word).or(Some(rate_unit_hint(word)))
}

fn delay_unit_hint(word: &[u8]) -> &'static str {
    if ends_with(word, "sec") {
        "milliseconds are spelled ms: 20msec is 20ms"
    } else if has(word, b'.') {
        "whole milliseconds only: 0.5 ms can't be said"
    } else if ends_with(word, "us") || ends_with(word, "ns") {
        "whole milliseconds only: 500us can't be said, 20000us is 20ms"
    } else {
        "a delay is in milliseconds: 20s is 20000ms"
    }
}

fn delay_hint(word: &[u8]) -> Option<&'static str> {
    if is_option(word) {
        return Some(NO_VALUE);
    }
    digits_hint(word).or(Some(delay_unit_hint(word)))
}

fn time_unit_hint(word: &[u8]) -> Option<&'static str> {
    if has(word, b'.') {
        Some("whole numbers only: 0.5 ms is 500us")
    } else if ends_with(word, "sec") {
        Some("units of time are spelled s, ms and us: 5usec is 5us")
    } else if ends_with(word, "ns") {
        Some("microseconds are the finest here: 5000ns is 5us")
    } else {
        None
    }
}

fn time_hint(word: &[u8]) -> Option<&'static str> {
    digits_hint(word).or(time_unit_hint(word))
}

fn fraction_hint(word: &[u8]) -> Option<&'static str> {
    if is_option(word) {
        Some(NO_VALUE)
    } else if has_sign(word) {
        Some(SIGN)
    } else if has(word, b'%') {
        Some("no percent sign: 5% is 0.05")
    } else if has(word, b',') {
        Some("a point stands there, not a comma: 0,05 is 0.05")
    } else if word.first() == Some(&b'.') {
        Some("a digit stands before the point: .05 is 0.05")
    } else if has(word, b'e') {
        Some("no exponent: 1e-3 is 0.001")
    } else if word.len() > 8 && has(word, b'.') {
        Some("at most six digits stand behind the point")
    } else {
        Some("it is a fraction of 1: 5% is 0.05")
    }
}

fn queue_unit_hint(word: &[u8]) -> &'static str {
    if has(word, b'.') || ends_with(word, "MB") {
        "whole numbers of KB, at most 1024: 0.5MB is 512KB, and 1MB is 1024KB"
    } else {
        "nothing behind the number means packets; bytes are said in units of 1024: 50KB"
    }
}

fn queue_hint(word: &[u8]) -> Option<&'static str> {
    if is_option(word) {
        return Some(NO_VALUE);
    }
    digits_hint(word).or(Some(queue_unit_hint(word)))
}

fn timing_hint(word: &[u8]) -> Option<&'static str> {
    if begins_with_digit(word) && has_letter(word) {
        Some("milliseconds without a unit: 200ms is 200, 1s is 1000")
    } else if has(word, b'.') {
        Some("whole milliseconds only: 0.2 s is 200")
    } else {
        number_hint(word)
    }
}

fn field_hint(word: &[u8]) -> Option<&'static str> {
    if is(word, "0xffffffff") {
        Some("a port has 16 bits, 0xffff, and a protocol 8, 0xff")
    } else if word.first() == Some(&b'/') {
        Some("a mask is no prefix length: /24 is 0xffffff00")
    } else if word.len() > 10 && ends_with(word, "f") {
        Some("a mask has at most 8 digits after 0x: 0xffffffff")
    } else if ends_with(word, "f") && !is_base_16(word) {
        Some("0x stands in front of it: ffff is 0xffff")
    } else if has(word, b'.') {
        Some("255.255.255.0 is 0xffffff00")
    } else {
        Some("the mask is written in base 16: 65535 is 0xffff")
    }
}

fn is_of_ipv6(word: &[u8]) -> bool {
    is(word, "ip6") || is(word, "ipv6") || is(word, "tcp6") || is(word, "udp6")
}

fn protocol_hint(word: &[u8]) -> Option<&'static str> {
    if is(word, "icmp") {
        Some("there is no icmp here: packets are tcp or udp")
    } else if is_of_ipv6(word) {
        Some("there is no IPv6 here")
    } else if is(word, "all") || is(word, "any") || is(word, "ip4") || is(word, "ipv4") {
        Some("ip is every packet")
    } else if is(word, "ip") {
        Some("a packet is either tcp or udp")
    } else if has_capital(word) {
        Some(LOWER)
    } else {
        None
    }
}

fn packet_hint(word: &[u8]) -> Option<&'static str> {
    if begins_with_digit(word) {
        Some("the protocol stands first, and the size last: udp 10.0.0.1 1000 10.0.0.2 2000 1000")
    } else {
        protocol_hint(word)
    }
}

fn match_hint(word: &[u8]) -> Option<&'static str> {
    if is(word, "from") {
        Some("the protocol stands before `from`: allow ip from any to any")
    } else {
        protocol_hint(word)
    }
}

// Returns true if one of an address's numbers has a leading zero, as in 010.0.0.1.
fn has_zero_in_a_part(word: &[u8]) -> bool {
    word.split(|b| *b == b'.')
        .any(|part| has_leading_zero(part))
}

fn prefix_hint(word: &[u8]) -> Option<&'static str> {
    if is(word, "me") || is(word, "not") {
        Some("ipfw's `me` and `not` aren't here")
    } else if has(word, b'(') {
        Some("tables aren't here: write a rule for each of their addresses")
    } else if has(word, b'{') || has(word, b',') {
        Some("no lists: write a rule for each address")
    } else if has(word, b'/') && points(word) > 3 {
        Some("a mask is a length: 10.0.0.0/255.255.255.0 is 10.0.0.0/24")
    } else if begins_with_digit(word) && has(word, b'*') {
        Some("a prefix says its length: 10.0.0.* is 10.0.0.0/24")
    } else if begins_with_digit(word) && has(word, b'-') {
        Some("no ranges of addresses: write prefixes, as 10.0.0.0/28")
    } else if colons(word) > 1 {
        Some("there is no IPv6 here")
    } else if has(word, b':') {
        Some("a mask is a length, 10.0.0.0/24, and a port is a word of its own")
    } else if has_letter(word) {
        Some("addresses are numbers: names aren't looked up")
    } else if has_zero_in_a_part(word) {
        Some("none of its numbers begins with 0: 010.0.0.1 is 10.0.0.1")
    } else if begins_with_digit(word) && points(word) < 3 {
        Some("an address has four numbers: 10.0.0 is 10.0.0.0/24")
    } else {
        None
    }
}

fn colons(word: &[u8]) -> usize {
    word.iter().filter(|b| **b == b':').count()
}

// Returns the number of points in a word.
fn points(word: &[u8]) -> usize {
    word.iter().filter(|b| **b == b'.').count()
}

fn address_hint(word: &[u8]) -> Option<&'static str> {
    if is(word, "tcp") || is(word, "udp") {
        Some("no protocol stands here: a flow is TCP, and says its two ends alone")
    } else if is(word, "from") || is(word, "to") {
        Some(
            "neither `from` nor `to` stands here: source, port, destination and port follow each other",
        )
    } else if points(word) == 3 && has(word, b':') {
        Some("a port is a word of its own: 10.0.0.1 1000")
    } else if is(word, "any") || has(word, b'/') || has(word, b'*') {
        Some("a packet has one source and one destination: an address, neither `any` nor a prefix")
    } else if begins_with_digit(word) && !has_letter(word) && points(word) < 3 {
        Some("an address has four numbers: 10.0.0.1")
    } else {
        prefix_hint(word)
    }
}

const NO_INTERFACE: &str =
    "a packet passes the rules once, and comes over no interface: choose it by its addresses";

// Returns true if a word begins an ipfw option about interfaces or directions.
fn is_of_an_interface(word: &[u8]) -> bool {
    is(word, "in") || is(word, "out") || is(word, "via") || is(word, "recv") || is(word, "xmit")
}

fn ports_hint(word: &[u8]) -> Option<&'static str> {
    if addresses::ports(word).is_some_and(|p| p.first > p.last) {
        Some("the first port is above the last: turn them round")
    } else if has(word, b',') {
        Some("no lists: a rule has one port or one range; write a rule for each")
    } else if addresses::address(word).is_some() {
        Some("a mask is a length behind the address: 10.0.0.0 255.255.255.0 is 10.0.0.0/24")
    } else if is(word, "src-port") || is(word, "dst-port") || is(word, "port") {
        Some("leave that word out: a port directly follows its address, as in to any 80")
    } else if is(word, "setup") || is(word, "established") || is(word, "keep-state") {
        Some(
            "packets here have no state and no flags: leave it out, and write a second rule for the way back",
        )
    } else if is_of_an_interface(word) {
        Some(NO_INTERFACE)
    } else if begins_with_digit(word) && has(word, b':') {
        Some("a range has a hyphen: 1000-2000")
    } else if has_letter(word) {
        Some("ports are numbers, and ipfw's options behind an address aren't here")
    } else {
        digits_hint(word)
    }
}

fn name_hint(word: &[u8]) -> Option<&'static str> {
    if word.len() > 32 {
        Some("it is longer than 32")
    } else if has_capital(word) {
        Some("lower case only")
    } else if has(word, b'"') || has(word, b'\'') || has(word, b',') {
        Some("neither quotes nor commas: experiment two-flows seed 1 budget 1000")
    } else if has(word, b'=') || has(word, b'.') || has(word, b':') {
        Some("neither = nor a point nor a colon stands in a name: q=10 is q-10 or q10")
    } else {
        Some("a name has only letters, digits, - and _: q/10 is q-10 or q10")
    }
}

fn verb_hint(word: &[u8]) -> Option<&'static str> {
    if word.first() == Some(&b'$') {
        return Some("leave `ipfw` out: @0 pipe 1 config bw 10Mbit/s");
    }
    hint_for(&VERBS, word).or(hint_for_typo(&OWN_VERBS, word))
}

fn action_hint(word: &[u8]) -> Option<&'static str> {
    hint_for(&ACTIONS, word).or(hint_for_typo(&OWN_ACTIONS, word))
}

fn is_unit(word: &[u8]) -> bool {
    is(word, "ms")
        || is(word, "s")
        || is(word, "us")
        || is(word, "KB")
        || is(word, "KBytes")
        || is(word, "Kbit/s")
        || is(word, "Mbit/s")
        || is(word, "Gbit/s")
        || is(word, "bit/s")
        || is(word, "packets")
        || is(word, "slots")
}

fn option_hint(word: &[u8]) -> Option<&'static str> {
    if has(word, b'=') {
        Some("a space stands between an option and its value, no =: bw 10Mbit/s")
    } else if is_unit(word) {
        Some(
            "a unit directly follows its number, without a space: 10Mbit/s; packets and slots have none",
        )
    } else if begins_with_digit(word) {
        Some("an option is a word and one value: bw 10Mbit/s delay 20; there is no jitter")
    } else {
        hint_for(&OPTIONS, word).or(hint_for_typo(&OWN_OPTIONS, word))
    }
}

fn is_congestion_control(word: &[u8]) -> bool {
    is(word, "cubic")
        || is(word, "bbr")
        || is(word, "reno")
        || is(word, "newreno")
        || word.starts_with(b"Tcp")
}

fn flow_option_hint(word: &[u8]) -> Option<&'static str> {
    if is_congestion_control(word) || is(word, "cc") {
        Some("each flow is Reno (RFC 5681): no other congestion control is here, and none is named")
    } else if has(word, b'=') {
        Some("a space stands between an option and its value, no =: rto 200")
    } else if is(word, "ms") || is(word, "s") {
        Some("`rto` is in milliseconds without a unit: rto 200")
    } else {
        hint_for_typo(&OWN_FLOW_OPTIONS, word)
    }
}

// Returns the hint for a word after the end of a line.
fn end_hint(word: &[u8]) -> Option<&'static str> {
    if is(word, ";") {
        Some(NO_SEMICOLON)
    } else if is(word, "-") {
        Some("a range is one word: 80-90")
    } else if is(word, "rules") || is(word, "pipes") || is(word, "all") {
        Some("`show` lists all rules, and `pipe show` all pipes")
    } else if is_foreign_comment(word) {
        Some(COMMENT)
    } else if word.first() == Some(&b'\\') {
        Some("a command stands on one line")
    } else if begins_with_digit(word) {
        Some("one number a line: write a command for each")
    } else if is(word, "setup") || is(word, "established") || is(word, "keep-state") {
        Some(
            "packets here have no state and no flags: leave it out, and write a second rule for the way back",
        )
    } else if is_of_an_interface(word) {
        Some(NO_INTERFACE)
    } else {
        None
    }
}

// Returns the hint where one of several words, or the end of the line, is expected.
fn choice_hint(expected: Expected, word: &[u8]) -> Option<&'static str> {
    if stood_before(expected, word) {
        return None;
    }
    if word.starts_with(b"//") {
        return Some(COMMENT);
    }
    let own = match expected {
        Expected::Verb => verb_hint(word),
        Expected::Rule(RuleWord::Action) => action_hint(word),
        Expected::Pipe(PipeWord::Mask(_)) => None,
        Expected::Pipe(_) => option_hint(word),
        Expected::Flow(FlowWord::Setting(_)) => flow_option_hint(word),
        _ => end_hint(word),
    };
    own.or(has_capital(word).then_some(LOWER))
}

// Returns the hint where the word `config` is expected, after a pipe's number.
fn config_hint(word: &[u8]) -> Option<&'static str> {
    if is(word, "show") {
        Some("all pipes are listed at once: pipe show")
    } else if is(word, "delete") {
        Some("the number stands behind it: pipe delete 1")
    } else if is(word, "configure") || is(word, "conf") || is(word, "cfg") || is(word, "set") {
        Some("did you mean `config`?")
    } else {
        None
    }
}

fn seed_hint(word: &[u8]) -> Option<&'static str> {
    if begins_with_digit(word) {
        Some("the name is missing: experiment two-flows seed 1 budget 1000")
    } else if is(word, "budget") {
        Some("the seed stands before the budget: experiment two-flows seed 1 budget 1000")
    } else if has_capital(word) {
        Some(LOWER)
    } else {
        hint_for_typo(&OWN_SEEDS, word).or(Some(
            "a name has no space in it, and `seed` follows: experiment drop-tail seed 1 budget 1000",
        ))
    }
}

// Returns the hint for a word in the place of a keyword that is specific to that keyword.
fn own_hint(wanted: Keyword, word: &[u8]) -> Option<&'static str> {
    match wanted {
        Keyword::Seed => seed_hint(word),
        Keyword::Steps => hint_for(&FOR_STEPS, word),
        Keyword::From if is(word, "to") => {
            Some("the source stands before the destination: ip from any to any")
        }
        Keyword::Gap => {
            Some("the time between two packets is their gap, in nanoseconds: gap 1000000")
        }
        Keyword::Count => Some(
            "how many packets there are, and then the time between two: count 7 gap 1000000",
        ),
        Keyword::Smss if is(word, "segments") => Some(
            "a segment's bytes stand before the number of segments: smss 1460 segments 1000",
        ),
        _ => None,
    }
}

fn word_hint(wanted: Keyword, word: &[u8]) -> Option<&'static str> {
    let own = if wanted == Keyword::Config {
        config_hint(word)
    } else if has(word, b'=') {
        Some("a space stands between a word and its value, no =")
    } else {
        own_hint(wanted, word)
    };
    own.or(has_capital(word).then_some(LOWER))
}

// Returns the hint for the expected form.
fn form_hint(form: Form, word: &[u8]) -> Option<&'static str> {
    match form {
        Form::Word(wanted) => word_hint(wanted, word),
        Form::Number(_, _) | Form::Segment | Form::Window => number_hint(word),
        Form::Moment => moment_hint(word),
        Form::Name => name_hint(word),
        Form::Protocol => packet_hint(word),
        Form::ProtocolMatch => match_hint(word),
        Form::Address => address_hint(word),
        Form::Prefix => prefix_hint(word),
        Form::Ports => ports_hint(word),
        Form::Rate => rate_hint(word),
        Form::Delay => delay_hint(word),
        Form::Queue => queue_hint(word),
        Form::Fraction => fraction_hint(word),
        Form::Time => time_hint(word),
        Form::Timing => timing_hint(word),
        Form::Field8 | Form::Field4 | Form::Field2 => field_hint(word),
    }
}

// Returns the hint for a train's gap with a unit.
fn gap_hint(expected: Expected, word: &[u8]) -> Option<&'static str> {
    let is_with_a_unit = begins_with_digit(word) && has_letter(word) && !is_base_16(word);
    match expected {
        Expected::Train(TrainWord::Gap) if is_with_a_unit => {
            Some("a gap is a whole number of nanoseconds without a unit: 20ms is 20000000")
        }
        _ => None,
    }
}

/// Returns what to write in place of a word that doesn't have the expected form, if there is a hint
/// for it. Our choice.
pub fn hint(expected: Expected, word: &[u8]) -> Option<&'static str> {
    if word.first() == Some(&b'#') {
        return Some("a comment has a line of its own");
    }
    if word.len() > 1 && word.last() == Some(&b';') {
        return Some(NO_SEMICOLON);
    }
    if is_of_a_template(word) {
        return Some(TEMPLATE);
    }
    match value_at(expected) {
        Some(value) => gap_hint(expected, word).or(form_hint(value.form, word)),
        None => choice_hint(expected, word),
    }
}

/// Returns the hint for a number outside its range, if there is more to say than the range. Our
/// choice.
pub fn range_hint(expected: Expected, word: &[u8]) -> Option<&'static str> {
    match value_at(expected)?.form {
        Form::Ports => ports_hint(word),
        Form::Moment => Some("10^15 ns are 11 days and a half"),
        Form::Segment if word.len() > 3 => Some(
            "a segment's bytes are without its 40 of headers: packets of 1500 bytes are smss 1460",
        ),
        Form::Window if word.len() > 4 => Some(
            "there is no window scaling: several flows fill a path that one can't",
        ),
        Form::Queue if word.len() > 3 => Some(
            "a number alone is packets; bytes are said in units of 1024: 15000 bytes are 15KB",
        ),
        Form::Queue if is(word, "0") => Some(
            "the packet in service isn't counted: with queue 1 one is in service and one waits",
        ),
        _ => None,
    }
}

const BYTE_ORDER_MARK: &str = "the file begins with a byte order mark: save it without one";

const NO_ASCII: &str =
    "it isn't ASCII: perhaps a typographic quote or dash, a no-break space, or a byte order mark";

// Returns the hint for a character that people paste or type, given the UTF-8 bytes that begin with
// it.
fn character_hint(bytes: &[u8]) -> &'static str {
    match bytes {
        [0xef, 0xbb, 0xbf, ..] => BYTE_ORDER_MARK,
        [0xc2, 0xa0, ..] => "it is a no-break space: put a plain space there",
        [0xc2, 0xb5, ..] | [0xce, 0xbc, ..] => "it is a Greek mu: microseconds are spelled us",
        [0xe2, 0x80, 0x8b..=0x8d, ..] => "it is an invisible zero-width space: delete it",
        [0xe2, 0x80, 0x90..=0x95, ..] => {
            "it is a typographic dash: write the ASCII hyphen - in its place"
        }
        [0xe2, 0x80, 0x98..=0x9f, ..] | [0xc2, 0xab | 0xbb, ..] => {
            "it is a typographic quote: a scenario has no quotes"
        }
        [0xe2, 0x86, 0x90..=0x93, ..] | [0xe2, 0x87, ..] => {
            "it is an arrow: a rule says `from` and `to`, and a flow neither"
        }
        [0xe2, 0x88, 0x92, ..] => "it is a typographic minus sign: numbers have no sign here",
        [0xef, 0xbc, 0x90..=0x99, ..] => "it is a full-width digit: write 0 to 9",
        [0xc3, ..] => "it is a letter outside ASCII: names, words and comments are ASCII only",
        _ => NO_ASCII,
    }
}

/// Returns the hint for a byte outside 32 to 126, given the rest of its line from that byte on. Our
/// choice.
pub fn byte_hint(bytes: &[u8]) -> &'static str {
    match bytes {
        [b'\t', ..] => "it is a tab: put spaces between words",
        [b'\r'] => {
            "the line ends with CR LF, as on Windows: lines end with LF alone (`tr -d '\\r'` takes the CRs away)"
        }
        [b'\r', ..] => "it is a carriage return: lines end with LF alone",
        [0, ..] => "it is a zero byte: the text may be UTF-16, or no text",
        [(128..), ..] => character_hint(bytes),
        _ => "it is a control byte",
    }
}

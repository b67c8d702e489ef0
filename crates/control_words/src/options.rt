//! The options of a pipe and of a flow, in any order, each at most once.

ghost use Rattle.std.specs.Prelude.{◌≡◌, option_map};
ghost use Rattle.control_words.specs.Text.{words as words_of};
ghost use Rattle.control_words.specs.Phrases.{next_phrase};
ghost use Rattle.control_words.specs.Options.{once as once_of, is_time, time_at, put_time, times_of, is_field, field_at, put_field, fields_of, mask_of, any_word, bare_of, setting_at, put_setting, options_of, flow_setting_at, put_flow_setting, flow_options_of};

use crate::numbers;
use crate::raw_options::{
    BareDiscipline, Field, FlowSetting, RawCodel, RawConfig, RawDiscipline, RawFields,
    RawFlowOptions, RawMask, Setting, Time,
};
use crate::text::{Words, is};

/// Returns the new value if there is no old one, and `None` otherwise.
fn once<T: Copy + Drop>(old: Option<T>, value: T) -> Option<Option<T>>
    ensures { result ≡ once_of old value }
{
    match old {
        None => Some(Some(value)),
        Some(_) => None,
    }
}

#[tactic(auto, unfolding(crate::specs::Options::is_time))]
fn is_time_key(key: &[u8]) -> bool
    ensures { result ≡ is_time key.now }
{
    is(key, "target") || is(key, "interval")
}

#[tactic(auto, unfolding(crate::specs::Options::time_at))]
fn time(key: &[u8], words: &mut Words) -> Option<Time>
    ensures { option_map (λ t. (t, words_of words.new.rest.now)) result
        ≡ time_at key.now (words_of words.old.rest.now) }
{
    if is(key, "target") {
        Some(Time::Target(numbers::time(words.next_word()?)?))
    } else if is(key, "interval") {
        Some(Time::Interval(numbers::time(words.next_word()?)?))
    } else {
        None
    }
}

/// Parses the next time of CoDel, if the next word is one.
fn next_time(words: &mut Words) -> Option<Option<Time>>
    ensures { option_map (λ t. (t, words_of words.new.rest.now)) result
        ≡ next_phrase is_time time_at (words_of words.old.rest.now) }
{
    let mut ahead = *words;
    let Some(key) = ahead.next_word() else {
        return Some(None);
    };
    if !is_time_key(key) {
        return Some(None);
    }
    let time = time(key, &mut ahead)?;
    *words = ahead;
    Some(Some(time))
}

fn with_time(codel: RawCodel, time: Time) -> Option<RawCodel>
    ensures { result ≡ put_time codel time }
{
    match time {
        Time::Target(n) => Some(RawCodel {
            target: once(codel.target, n)?,
            ..codel
        }),
        Time::Interval(n) => Some(RawCodel {
            interval: once(codel.interval, n)?,
            ..codel
        }),
    }
}

/// Parses the times of CoDel that follow.
fn times(words: &mut Words, mut codel: RawCodel) -> Option<RawCodel>
    ensures { option_map (λ c. (c, words_of words.new.rest.now)) result
        ≡ times_of codel (words_of words.old.rest.now) }
{
    while let Some(time) = next_time(words)? {
        codel = with_time(codel, time)?;
    }
    Some(codel)
}

#[tactic(auto, unfolding(crate::specs::Options::is_field))]
fn is_field_key(key: &[u8]) -> bool
    ensures { result ≡ is_field key.now }
{
    is(key, "src-ip")
        || is(key, "dst-ip")
        || is(key, "src-port")
        || is(key, "dst-port")
        || is(key, "proto")
}

#[tactic(auto, unfolding(crate::specs::Options::field_at))]
fn field(key: &[u8], words: &mut Words) -> Option<Field>
    ensures { option_map (λ f. (f, words_of words.new.rest.now)) result
        ≡ field_at key.now (words_of words.old.rest.now) }
{
    if is(key, "src-ip") {
        Some(Field::SrcIp(numbers::hexadecimal(words.next_word()?, 8)?))
    } else if is(key, "dst-ip") {
        Some(Field::DstIp(numbers::hexadecimal(words.next_word()?, 8)?))
    } else if is(key, "src-port") {
        Some(Field::SrcPort(numbers::hexadecimal(words.next_word()?, 4)?))
    } else if is(key, "dst-port") {
        Some(Field::DstPort(numbers::hexadecimal(words.next_word()?, 4)?))
    } else if is(key, "proto") {
        Some(Field::Proto(numbers::hexadecimal(words.next_word()?, 2)?))
    } else {
        None
    }
}

/// Parses the next field of a mask, if the next word is one.
fn next_field(words: &mut Words) -> Option<Option<Field>>
    ensures { option_map (λ f. (f, words_of words.new.rest.now)) result
        ≡ next_phrase is_field field_at (words_of words.old.rest.now) }
{
    let mut ahead = *words;
    let Some(key) = ahead.next_word() else {
        return Some(None);
    };
    if !is_field_key(key) {
        return Some(None);
    }
    let field = field(key, &mut ahead)?;
    *words = ahead;
    Some(Some(field))
}

fn with_field(fields: RawFields, field: Field) -> Option<RawFields>
    ensures { result ≡ put_field fields field }
{
    match field {
        Field::SrcIp(n) => Some(RawFields {
            src_ip: once(fields.src_ip, n)?,
            ..fields
        }),
        Field::DstIp(n) => Some(RawFields {
            dst_ip: once(fields.dst_ip, n)?,
            ..fields
        }),
        Field::SrcPort(n) => Some(RawFields {
            src_port: once(fields.src_port, n)?,
            ..fields
        }),
        Field::DstPort(n) => Some(RawFields {
            dst_port: once(fields.dst_port, n)?,
            ..fields
        }),
        Field::Proto(n) => Some(RawFields {
            proto: once(fields.proto, n)?,
            ..fields
        }),
    }
}

/// Parses the fields of a mask that follow.
fn more_fields(words: &mut Words, mut fields: RawFields) -> Option<RawFields>
    ensures { option_map (λ f. (f, words_of words.new.rest.now)) result
        ≡ fields_of fields (words_of words.old.rest.now) }
{
    while let Some(field) = next_field(words)? {
        fields = with_field(fields, field)?;
    }
    Some(fields)
}

/// Parses `all`, or one or more fields.
#[tactic(auto, unfolding(crate::specs::Options::mask_of))]
fn mask(words: &mut Words) -> Option<RawMask>
    ensures { option_map (λ m. (m, words_of words.new.rest.now)) result
        ≡ mask_of (words_of words.old.rest.now) }
{
    let mut ahead = *words;
    if is(ahead.next_word()?, "all") {
        *words = ahead;
        return Some(RawMask::Everything);
    }
    let first = next_field(words)??;
    let none = RawFields {
        src_ip: None,
        dst_ip: None,
        src_port: None,
        dst_port: None,
        proto: None,
    };
    let one = with_field(none, first)?;
    let fields = more_fields(words, one)?;
    Some(RawMask::Fields(fields))
}

/// Returns the discipline without options of its own that this word names.
pub fn bare_discipline(key: &[u8]) -> Option<BareDiscipline>
    ensures { result ≡ bare_of key.now }
{
    if is(key, "droptail") {
        Some(BareDiscipline::TailDrop)
    } else {
        None
    }
}

/// Parses the rest of the option that begins with this word.
#[tactic(auto, unfolding(crate::specs::Options::setting_at))]
fn setting(key: &[u8], words: &mut Words) -> Option<Setting>
    ensures { option_map (λ s. (s, words_of words.new.rest.now)) result
        ≡ setting_at key.now (words_of words.old.rest.now) }
{
    if is(key, "bw") {
        Some(Setting::Bw(numbers::rate(words.next_word()?)?))
    } else if is(key, "delay") {
        Some(Setting::Delay(numbers::delay(words.next_word()?)?))
    } else if is(key, "queue") {
        Some(Setting::Queue(numbers::queue(words.next_word()?)?))
    } else if is(key, "plr") {
        Some(Setting::Plr(numbers::fraction(words.next_word()?)?))
    } else if is(key, "mask") {
        Some(Setting::Mask(mask(words)?))
    } else if is(key, "codel") {
        let none = RawCodel {
            target: None,
            interval: None,
        };
        let codel = times(words, none)?;
        Some(Setting::Discipline(RawDiscipline::ControlledDelay(codel)))
    } else {
        let bare = bare_discipline(key)?;
        Some(Setting::Discipline(RawDiscipline::Bare(bare)))
    }
}

/// Parses the next option, if a word is left.
fn next_setting(words: &mut Words) -> Option<Option<Setting>>
    ensures { option_map (λ s. (s, words_of words.new.rest.now)) result
        ≡ next_phrase any_word setting_at (words_of words.old.rest.now) }
{
    let mut ahead = *words;
    let Some(key) = ahead.next_word() else {
        return Some(None);
    };
    let setting = setting(key, &mut ahead)?;
    *words = ahead;
    Some(Some(setting))
}

fn with_setting(config: RawConfig, setting: Setting) -> Option<RawConfig>
    ensures { result ≡ put_setting config setting }
{
    match setting {
        Setting::Bw(n) => Some(RawConfig {
            bw: once(config.bw, n)?,
            ..config
        }),
        Setting::Delay(n) => Some(RawConfig {
            delay: once(config.delay, n)?,
            ..config
        }),
        Setting::Queue(n) => Some(RawConfig {
            queue: once(config.queue, n)?,
            ..config
        }),
        Setting::Plr(n) => Some(RawConfig {
            plr: once(config.plr, n)?,
            ..config
        }),
        Setting::Mask(n) => Some(RawConfig {
            mask: once(config.mask, n)?,
            ..config
        }),
        Setting::Discipline(n) => Some(RawConfig {
            discipline: once(config.discipline, n)?,
            ..config
        }),
    }
}

/// Parses the options of a pipe, to the end of the line: `bw RATE`, `delay DELAY`, `queue LIMIT`,
/// `plr FRACTION`, `mask` with `all` or fields, and `droptail` or `codel` with its times, in any
/// order, each at most once. Returns `None` if the remaining words are not such options (ipfw(8),
/// pipe config). The units are bit/s, ms, ns and millionths.
#[tactic(auto, unfolding(crate::specs::Options::options_of))]
pub fn pipe_options(mut words: Words) -> Option<RawConfig>
    ensures { result ≡ options_of (words_of words.entry.rest.now) }
{
    let mut config = RawConfig {
        bw: None,
        delay: None,
        queue: None,
        plr: None,
        mask: None,
        discipline: None,
    };
    while let Some(setting) = next_setting(&mut words)? {
        config = with_setting(config, setting)?;
    }
    Some(config)
}

/// Parses the rest of the option that begins with this word.
#[tactic(auto, unfolding(crate::specs::Options::flow_setting_at))]
fn flow_setting(key: &[u8], words: &mut Words) -> Option<FlowSetting>
    ensures { option_map (λ s. (s, words_of words.new.rest.now)) result
        ≡ flow_setting_at key.now (words_of words.old.rest.now) }
{
    if is(key, "ssthresh") {
        Some(FlowSetting::Ssthresh(numbers::number(words.next_word()?)?))
    } else if is(key, "window") {
        Some(FlowSetting::Window(numbers::number(words.next_word()?)?))
    } else if is(key, "rto") {
        Some(FlowSetting::Timing(numbers::timing(words.next_word()?)?))
    } else {
        None
    }
}

/// Parses the next option, if a word is left.
fn next_flow_setting(words: &mut Words) -> Option<Option<FlowSetting>>
    ensures { option_map (λ s. (s, words_of words.new.rest.now)) result
        ≡ next_phrase any_word flow_setting_at (words_of words.old.rest.now) }
{
    let mut ahead = *words;
    let Some(key) = ahead.next_word() else {
        return Some(None);
    };
    let setting = flow_setting(key, &mut ahead)?;
    *words = ahead;
    Some(Some(setting))
}

fn with_flow_setting(options: RawFlowOptions, setting: FlowSetting) -> Option<RawFlowOptions>
    ensures { result ≡ put_flow_setting options setting }
{
    match setting {
        FlowSetting::Ssthresh(n) => Some(RawFlowOptions {
            ssthresh: once(options.ssthresh, n)?,
            ..options
        }),
        FlowSetting::Window(n) => Some(RawFlowOptions {
            window: once(options.window, n)?,
            ..options
        }),
        FlowSetting::Timing(n) => Some(RawFlowOptions {
            timing: once(options.timing, n)?,
            ..options
        }),
    }
}

/// Parses the options of a flow, to the end of the line: `ssthresh N`, `window N` and `rto TIMING`,
/// in any order, each at most once. Returns `None` if the remaining words are not such options. The
/// units are bytes and ms. Our choice.
#[tactic(auto, unfolding(crate::specs::Options::flow_options_of))]
pub fn flow_options(mut words: Words) -> Option<RawFlowOptions>
    ensures { result ≡ flow_options_of (words_of words.entry.rest.now) }
{
    let mut options = RawFlowOptions {
        ssthresh: None,
        window: None,
        timing: None,
    };
    while let Some(setting) = next_flow_setting(&mut words)? {
        options = with_flow_setting(options, setting)?;
    }
    Some(options)
}

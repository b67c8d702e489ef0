//! A fast path for the most common line of a long scenario, a single packet. It parses a line with
//! one space between the words and each number in its range. For any other line it returns `None`,
//! which doesn't mean that the line is wrong.

ghost use Rattle.std.specs.Prelude.{◌≡◌, ◌+◌, ◌≤◌, ◌==◌, ◌&&◌, not, ◌∷◌, [], Some, length, take, IfSome};
ghost use Rattle.std.specs.Char.{is_ascii_digit};
ghost use Rattle.std.specs.List.{list_all};
ghost use Rattle.control_words.specs.Text.{words};
ghost use Rattle.control_words.specs.Numbers.{digits_after};
ghost use Rattle.control_lines.specs.Entries.{is_printable};
ghost use Rattle.control_lines.specs.PacketLine.{
  inject,
  tcp,
  udp,
  is_address_byte,
  IsNumber,
  IsAddress,
  SpellsMoment,
  IsProtocol,
  Leads,
  Takes,
  IsPacket,
  IsPacketLine,
};

use emu_model::{Command, LATEST_MOMENT, Protocol, RangedU16, SendSpec, Timed};

/// The maximum number of digits that are parsed as one number, which always fits 64 bits.
const MAX_DIGITS: usize = 19;

/// Returns the leading digits as a number, and their count.
fn digits_in_front(text: &[u8]) -> (u64, usize)
    requires { length text.now ≤ MAX_DIGITS }
    ensures value { digits_after 0 (take result.1 text.now) ≡ Some result.0 }
    ensures within { result.1 ≤ length text.now }
{
    let mut n = 0u64;
    let mut count = 0;
    for c in text {
        if !c.is_ascii_digit() {
            break;
        }
        n = n * 10 + u64::from(*c - b'0');
        count += 1;
    }
    (n, count)
}

/// Returns true if digits, given the first and their count, have a leading zero.
fn has_leading_zero(first: u8, count: usize) -> bool
    ensures { result ≡ (first == 48 && not (count == 1)) }
{
    first == b'0' && count != 1
}

/// Returns the leading number, and the bytes that directly follow it.
fn number(text: &[u8]) -> Option<(u64, &[u8])>
    ensures { IfSome result (λ x. Leads IsNumber is_ascii_digit text.now x.0 x.1.now) }
{
    let (n, count) = digits_in_front(&text[..text.len().min(MAX_DIGITS)]);
    if count == 0 {
        return None;
    }
    if has_leading_zero(text[0], count) {
        return None;
    }
    Some((n, &text[count..]))
}

/// Returns the bytes after this leading byte.
fn behind(text: &[u8], byte: u8) -> Option<&[u8]>
    ensures { IfSome result (λ r. text.now ≡ byte ∷ r.now) }
{
    if text.is_empty() {
        return None;
    }
    if text[0] != byte {
        return None;
    }
    Some(&text[1..])
}

/// Returns a number that is a word, and the bytes after the space that follows it.
fn number_word(text: &[u8]) -> Option<(u64, &[u8])>
    ensures { IfSome result (λ x. Takes IsNumber text.now x.0 x.1.now) }
{
    let (n, rest) = number(text)?;
    let rest = behind(rest, b' ')?;
    Some((n, rest))
}

/// Returns a time that is a word, and the bytes after the space that follows it.
fn moment_word(text: &[u8]) -> Option<(u64, &[u8])>
    ensures { IfSome result (λ x. Takes SpellsMoment text.now x.0 x.1.now × (x.0 ≤ LATEST_MOMENT)) }
{
    let digits = behind(text, b'@')?;
    let (n, rest) = number(digits)?;
    if n > LATEST_MOMENT {
        return None;
    }
    let rest = behind(rest, b' ')?;
    Some((n, rest))
}

/// Returns the bytes after the word `inject` and the space that follows it.
fn after_inject(text: &[u8]) -> Option<&[u8]>
    ensures word { IfSome result (λ r. words text.now ≡ inject ∷ words r.now) }
    ensures printed { IfSome result
        (λ r. list_all is_printable text.now ≡ list_all is_printable r.now) }
{
    match text {
        [b'i', b'n', b'j', b'e', b'c', b't', b' ', rest @ ..] => Some(rest),
        _ => None,
    }
}

/// Returns the bytes after the word `tcp` and the space that follows it.
fn after_tcp(text: &[u8]) -> Option<&[u8]>
    ensures word { IfSome result (λ r. words text.now ≡ tcp ∷ words r.now) }
    ensures printed { IfSome result
        (λ r. list_all is_printable text.now ≡ list_all is_printable r.now) }
{
    match text {
        [b't', b'c', b'p', b' ', rest @ ..] => Some(rest),
        _ => None,
    }
}

/// Returns the bytes after the word `udp` and the space that follows it.
fn after_udp(text: &[u8]) -> Option<&[u8]>
    ensures word { IfSome result (λ r. words text.now ≡ udp ∷ words r.now) }
    ensures printed { IfSome result
        (λ r. list_all is_printable text.now ≡ list_all is_printable r.now) }
{
    match text {
        [b'u', b'd', b'p', b' ', rest @ ..] => Some(rest),
        _ => None,
    }
}

/// Returns a protocol that is a word, and the bytes after the space that follows it.
fn protocol_word(text: &[u8]) -> Option<(Protocol, &[u8])>
    ensures { IfSome result (λ x. Takes IsProtocol text.now x.0 x.1.now) }
{
    if let Some(rest) = after_udp(text) {
        return Some((Protocol::Udp, rest));
    }
    let rest = after_tcp(text)?;
    Some((Protocol::Tcp, rest))
}

/// Returns the leading digit, and the bytes after it.
fn digit(text: &[u8]) -> Option<(u32, &[u8])>
    ensures { IfSome result (λ x. (text.now ≡ (48 + x.0) ∷ x.1.now) × (x.0 ≤ 9)) }
{
    if text.is_empty() {
        return None;
    }
    if !text[0].is_ascii_digit() {
        return None;
    }
    Some((u32::from(text[0] - b'0'), &text[1..]))
}

/// Returns one of an address's four numbers, and the bytes that directly follow it.
fn part(text: &[u8]) -> Option<(u32, &[u8])>
    ensures { IfSome result
        (λ x. Leads IsNumber is_ascii_digit text.now x.0 x.1.now × (x.0 ≤ 255)) }
{
    let (first, behind_first) = digit(text)?;
    let Some((second, behind_second)) = digit(behind_first) else {
        return Some((first, behind_first));
    };
    if first == 0 {
        return None;
    }
    let Some((third, behind_third)) = digit(behind_second) else {
        return Some((first * 10 + second, behind_second));
    };
    let n = (first * 10 + second) * 10 + third;
    if n > 255 {
        return None;
    }
    Some((n, behind_third))
}

/// Returns one of an address's four numbers, and the bytes after the point that follows it.
fn part_and_point(text: &[u8]) -> Option<(u32, &[u8])>
    ensures { IfSome result
        (λ x. Leads IsNumber is_ascii_digit text.now x.0 (46 ∷ x.1.now) × (x.0 ≤ 255)) }
{
    let (n, rest) = part(text)?;
    let rest = behind(rest, b'.')?;
    Some((n, rest))
}

/// Returns the leading address, and the bytes that directly follow it.
fn address(text: &[u8]) -> Option<(u32, &[u8])>
    ensures { IfSome result (λ x. Leads IsAddress is_address_byte text.now x.0 x.1.now) }
{
    let (first, rest) = part_and_point(text)?;
    let (second, rest) = part_and_point(rest)?;
    let (third, rest) = part_and_point(rest)?;
    let (fourth, rest) = part(rest)?;
    let address = ((first * 256 + second) * 256 + third) * 256 + fourth;
    Some((address, rest))
}

/// Returns an address that is a word, and the bytes after the space that follows it.
fn address_word(text: &[u8]) -> Option<(u32, &[u8])>
    ensures { IfSome result (λ x. Takes IsAddress text.now x.0 x.1.now) }
{
    let (address, rest) = address(text)?;
    let rest = behind(rest, b' ')?;
    Some((address, rest))
}

/// Returns a port that is a word, and the bytes after the space that follows it.
fn port_word(text: &[u8]) -> Option<(u16, &[u8])>
    ensures { IfSome result (λ x. Takes IsNumber text.now x.0 x.1.now × (x.0 ≤ 65535)) }
{
    let (n, rest) = number_word(text)?;
    if n > 65_535 {
        return None;
    }
    Some((n as u16, rest))
}

/// Returns a number that is the last word, with nothing after it.
fn last_number(text: &[u8]) -> Option<u64>
    ensures { IfSome result (λ n. Takes IsNumber text.now n []) }
{
    let (n, rest) = number(text)?;
    if !rest.is_empty() {
        return None;
    }
    Some(n)
}

/// Returns a size that is the last word.
fn last_size(text: &[u8]) -> Option<RangedU16<40, 1500>>
    ensures { IfSome result (λ n. Takes IsNumber text.now n [] × (40 ≤ n) × (n ≤ 1500)) }
{
    let n = last_number(text)?;
    if n > 1500 {
        return None;
    }
    RangedU16::new(n as u16)
}

/// Parses the rest of an `inject` command after its first word.
fn packet(text: &[u8]) -> Option<SendSpec>
    ensures { IfSome result (λ p. IsPacket text.now p) }
{
    let (proto, rest) = protocol_word(text)?;
    let (src, rest) = address_word(rest)?;
    let (sport, rest) = port_word(rest)?;
    let (dst, rest) = address_word(rest)?;
    let (dport, rest) = port_word(rest)?;
    let size = last_size(rest)?;
    Some(SendSpec {
        proto,
        src,
        sport,
        dst,
        dport,
        size,
    })
}

/// Returns the `inject` command of this line.
pub fn packet_line(line: &[u8]) -> Option<Timed>
    ensures { IfSome result (λ t. IsPacketLine line.now t) }
{
    let (moment, rest) = moment_word(line)?;
    let rest = after_inject(rest)?;
    let packet = packet(rest)?;
    Some(Timed {
        moment,
        command: Command::Inject(packet),
    })
}

//! Parsers for single words: protocols, addresses, ports and names.

ghost use Rattle.std.specs.Prelude.{◌≡◌, option_map};
ghost use Rattle.std.specs.List.{list_all};
ghost use Rattle.control_words.specs.Addresses.{
  protocol_of,
  match_of,
  address_of,
  prefix_of,
  ports_of,
  is_name_byte,
  name_of,
};

use crate::numbers;
use crate::raw::{RawAddress, RawPorts, RawPrefix};
use crate::text::{is, split_once};
use emu_model::{Protocol, ProtocolMatch};

/// Parses `tcp` or `udp`. Returns `None` for any other word (ipfw(8), proto).
#[tactic(auto, unfolding(crate::specs::Addresses::protocol_of))]
pub fn protocol(word: &[u8]) -> Option<Protocol>
    ensures { result ≡ protocol_of word.now }
{
    if is(word, "tcp") {
        Some(Protocol::Tcp)
    } else if is(word, "udp") {
        Some(Protocol::Udp)
    } else {
        None
    }
}

/// Parses `ip` (which is any protocol), `tcp` or `udp`. Returns `None` for any other word (ipfw(8),
/// proto).
#[tactic(auto, unfolding(crate::specs::Addresses::match_of))]
pub fn protocol_match(word: &[u8]) -> Option<ProtocolMatch>
    ensures { result ≡ match_of word.now }
{
    if is(word, "ip") {
        Some(ProtocolMatch::AnyProtocol)
    } else if is(word, "tcp") {
        Some(ProtocolMatch::OnlyTcp)
    } else if is(word, "udp") {
        Some(ProtocolMatch::OnlyUdp)
    } else {
        None
    }
}

/// Parses four numbers separated by points. Returns `None` for any other word (ipfw(8), addr).
#[tactic(auto, unfolding(crate::specs::Addresses::address_of))]
pub fn address(word: &[u8]) -> Option<RawAddress>
    ensures { result ≡ address_of word.now }
{
    let (first, rest) = split_once(word, b'.')?;
    let (second, rest) = split_once(rest, b'.')?;
    let (third, fourth) = split_once(rest, b'.')?;
    if let Some((_extra, _rest)) = split_once(fourth, b'.') {
        return None;
    }
    Some(RawAddress {
        first: numbers::number(first)?,
        second: numbers::number(second)?,
        third: numbers::number(third)?,
        fourth: numbers::number(fourth)?,
    })
}

/// Parses `any` (which is `0.0.0.0/0`), or an address, or an address directly followed by `/` and
/// the number of its bits that count, which is otherwise 32. Returns `None` for any other word
/// (ipfw(8), addr).
#[tactic(auto, unfolding(crate::specs::Addresses::prefix_of))]
pub fn prefix(word: &[u8]) -> Option<RawPrefix>
    ensures { result ≡ prefix_of word.now }
{
    if is(word, "any") {
        let address = RawAddress {
            first: 0,
            second: 0,
            third: 0,
            fourth: 0,
        };
        return Some(RawPrefix { address, length: 0 });
    }
    let Some((host, bits)) = split_once(word, b'/') else {
        let address = address(word)?;
        return Some(RawPrefix {
            address,
            length: 32,
        });
    };
    if let Some((_extra, _rest)) = split_once(bits, b'/') {
        return None;
    }
    let address = address(host)?;
    let length = numbers::number(bits)?;
    Some(RawPrefix { address, length })
}

/// Parses a port, or the first and the last port separated by `-`. Returns `None` for any other
/// word (ipfw(8), ports).
#[tactic(auto, unfolding(crate::specs::Addresses::ports_of))]
pub fn ports(word: &[u8]) -> Option<RawPorts>
    ensures { result ≡ ports_of word.now }
{
    let Some((first, last)) = split_once(word, b'-') else {
        let port = numbers::number(word)?;
        return Some(RawPorts {
            first: port,
            last: port,
        });
    };
    if let Some((_extra, _rest)) = split_once(last, b'-') {
        return None;
    }
    let first = numbers::number(first)?;
    let last = numbers::number(last)?;
    Some(RawPorts { first, last })
}

fn is_name_char(c: u8) -> bool
    ensures { result ≡ is_name_byte c }
{
    (b'a' <= c && c <= b'z') || (b'0' <= c && c <= b'9') || c == b'-' || c == b'_'
}

fn has_name_chars(word: &[u8]) -> bool
    ensures { result ≡ list_all is_name_byte word.now }
{
    word.iter().all(|c| is_name_char(*c))
}

/// Returns the word if it is 1 to 32 characters of `a` to `z`, `0` to `9`, `-` and `_`, and `None`
/// otherwise. Our choice.
#[tactic(auto, unfolding(crate::specs::Addresses::name_of))]
pub fn name(word: &[u8]) -> Option<&[u8]>
    ensures { option_map (λ w. w.now) result ≡ name_of word.now }
{
    if word.is_empty() {
        return None;
    }
    if word.len() > 32 {
        return None;
    }
    if !has_name_chars(word) {
        return None;
    }
    Some(word)
}

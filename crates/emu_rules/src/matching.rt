//! The test whether a rule matches a packet.

ghost use Rattle.std.specs.Prelude.{◌≡◌};
ghost use Rattle.emu_model.specs.Rules.{rule_matches, proto_matches, address_matches, port_matches};

use emu_model::{Packet, PortRange, Prefix, Protocol, ProtocolMatch, Rule};

fn matches_protocol(wanted: ProtocolMatch, proto: Protocol) -> bool
    ensures { result ≡ proto_matches wanted proto }
{
    match (wanted, proto) {
        (ProtocolMatch::AnyProtocol, _) => true,
        (ProtocolMatch::OnlyTcp, Protocol::Tcp) => true,
        (ProtocolMatch::OnlyTcp, Protocol::Udp) => false,
        (ProtocolMatch::OnlyUdp, Protocol::Tcp) => false,
        (ProtocolMatch::OnlyUdp, Protocol::Udp) => true,
    }
}

fn matches_address(prefix: Prefix, address: u32) -> bool
    ensures { result ≡ address_matches prefix address }
{
    // In 64 bits, the shift by 32 for an empty prefix is defined too.
    let shift = 32 - prefix.length().get();
    u64::from(address) >> shift == u64::from(prefix.address()) >> shift
}

fn matches_port(ports: Option<PortRange>, port: u16) -> bool
    ensures { result ≡ port_matches ports port }
{
    match ports {
        None => true,
        Some(range) => range.first() <= port && port <= range.last(),
    }
}

pub(crate) fn matches(rule: &Rule, packet: &Packet) -> bool
    ensures { result ≡ rule_matches packet.now rule.now }
{
    // The address is first, since most rules that don't match differ there.
    matches_address(rule.src, packet.src)
        && matches_protocol(rule.proto, packet.proto)
        && matches_port(rule.sports, packet.sport)
        && matches_address(rule.dst, packet.dst)
        && matches_port(rule.dports, packet.dport)
}

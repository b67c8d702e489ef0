//! The sources and destinations of packets.

ghost use Rattle.std.specs.Prelude.{◌≡◌};
ghost use Rattle.explain.specs.Ways.{sent_ends, segment_ends, turned, packet_of};

use emu_model::{FlowSpec, Load, Packet, Place, Protocol, RuleNumber, SendSpec, Size};

/// The protocol of packets, and their source and destination with the ports.
#[derive(Clone, Copy, PartialEq)]
pub struct Ends {
    pub proto: Protocol,
    pub src: u32,
    pub sport: u16,
    pub dst: u32,
    pub dport: u16,
}

/// Returns the ends of the packets that a train or an `inject` sends.
pub fn sent_ends(send: &SendSpec) -> Ends
    ensures { result ≡ sent_ends send.now }
{
    Ends {
        proto: send.proto,
        src: send.src,
        sport: send.sport,
        dst: send.dst,
        dport: send.dport,
    }
}

/// Returns the ends of a flow's segments.
pub fn segment_ends(flow: &FlowSpec) -> Ends
    ensures { result ≡ segment_ends flow.now }
{
    Ends {
        proto: Protocol::Tcp,
        src: flow.src,
        sport: flow.sport,
        dst: flow.dst,
        dport: flow.dport,
    }
}

/// Returns the ends of the other direction.
pub fn reverse_of(ends: Ends) -> Ends
    ensures { result ≡ turned ends }
{
    Ends {
        proto: ends.proto,
        src: ends.dst,
        sport: ends.dport,
        dst: ends.src,
        dport: ends.sport,
    }
}

/// Returns a packet with these ends, for a search among the rules, which uses nothing else of it.
pub fn packet_of(ends: &Ends) -> Packet
    ensures { result ≡ packet_of ends.now }
{
    let (Some(size), Some(number)) = (Size::new(40), RuleNumber::new(0)) else {
        unreachable!()
    };
    Packet {
        proto: ends.proto,
        src: ends.src,
        sport: ends.sport,
        dst: ends.dst,
        dport: ends.dport,
        size,
        number: 0,
        load: Load::Plain,
        place: Place { number, order: 0 },
    }
}

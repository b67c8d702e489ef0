//! Flow identifiers.
ghost use Rattle.std.specs.Prelude.{◌≡◌};
ghost use Rattle.emu_model.specs.FlowIds.{FlowId as Id, flow_id, protocol_number};
ghost use Rattle.emu_model.specs.declared.packets.Packet.{Packet};

use emu_model::{Mask, Packet, Protocol};
use std::marker::Model;

/// A packet's five fields, each masked. Contracts see the record of the definitions.
#[derive(Clone, Copy, PartialEq, Eq, Hash)]
pub struct FlowId {
    proto: u8,
    src: u32,
    dst: u32,
    sport: u16,
    dport: u16,
}

impl Model for FlowId {
    ghost use Rattle.emu_model.specs.FlowIds.{FlowId as Id};

    ghost Value = { Id };

    ghost view = { λ i. record {
      proto = i.proto;
      src = i.src;
      dst = i.dst;
      sport = i.sport;
      dport = i.dport;
    } };

    ghost inverse = { λ i. record {
      proto = i.proto;
      src = i.src;
      dst = i.dst;
      sport = i.sport;
      dport = i.dport;
    } };
}

impl FlowId {
    /// Returns the five fields, in the form of a mask.
    pub fn fields(&self) -> Mask
        ensures { let i = self.now in
            result ≡ record {
              proto = i.proto;
              src = i.src;
              dst = i.dst;
              sport = i.sport;
              dport = i.dport;
            } }
    {
        Mask {
            proto: self.proto,
            src: self.src,
            dst: self.dst,
            sport: self.sport,
            dport: self.dport,
        }
    }
}

/// A mask that distinguishes flows.
pub trait ApplyMask {
    /// The identifier of each packet.
    ghost identifier: { Self → Packet → Id };

    /// Returns the packet's flow identifier. Does not allocate.
    fn apply(&self, packet: &Packet) -> FlowId
        ensures { result ≡ identifier self.now packet.now };
}

impl ApplyMask for Mask {
    ghost identifier = { flow_id };

    fn apply(&self, packet: &Packet) -> FlowId {
        FlowId {
            proto: self.proto & number_of(packet.proto),
            src: self.src & packet.src,
            dst: self.dst & packet.dst,
            sport: self.sport & packet.sport,
            dport: self.dport & packet.dport,
        }
    }
}

// Returns the protocol's number in an IP header.
fn number_of(protocol: Protocol) -> u8
    ensures { result ≡ protocol_number protocol }
{
    match protocol {
        Protocol::Tcp => 6,
        Protocol::Udp => 17,
    }
}

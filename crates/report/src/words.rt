//! The parts of a line that are more than a number.

ghost use Rattle.std.specs.Prelude.{◌≡◌, ◌+◌, ◌≤◌, ◌++◌, vec_capacity};
ghost use Rattle.report.specs.Room.{spare, Appends};
ghost use Rattle.report.specs.Words.{instance_name, code_of, action_of, protocol_of, transport_of, dotted, address_and_port, header_of, prefix_of, ports_of, end_of, queue_of, mask_of, discipline_of};

use crate::pieces::{append, append_labelled, append_number, append_places};
use emu_model::{
    Action, Discipline, Mask, PipeNumber, PortRange, Prefix, Protocol, ProtocolMatch, QueueLimit,
    Refusal, SendSpec,
};

/// Appends the name of an instance: the pipe's number, a dot, and its own number.
#[inline]
pub fn append_instance(out: &mut Vec<u8>, pipe: PipeNumber, instance: u8)
    requires { 41 ≤ spare out.old }
    ensures { Appends (instance_name pipe instance) 41 out.old out.new }
{
    append_number(out, u64::from(pipe.get()));
    append_labelled(out, b".", u64::from(instance));
}

/// Returns the code of a refused command (docs/reference/report.md).
pub fn refusal_code(refusal: Refusal) -> u64
    ensures { result ≡ code_of refusal }
{
    u64::from(refusal as u8)
}

/// Appends the action of a rule, in the words of a scenario.
pub fn append_action(out: &mut Vec<u8>, action: Action)
    requires { 27 ≤ spare out.old }
    ensures { Appends (action_of action) 27 out.old out.new }
{
    match action {
        Action::Allow => append(out, b"allow"),
        Action::Deny => append(out, b"deny"),
        Action::Count => append(out, b"count"),
        Action::SkipTo(number) => append_labelled(out, b"skipto ", u64::from(number.get())),
        Action::Pipe(pipe) => append_labelled(out, b"pipe ", u64::from(pipe.get())),
    }
}

/// Appends the protocol of a rule: `ip`, `tcp` or `udp`.
pub fn append_protocol(out: &mut Vec<u8>, proto: ProtocolMatch)
    requires { 3 ≤ spare out.old }
    ensures { Appends (protocol_of proto) 3 out.old out.new }
{
    match proto {
        ProtocolMatch::AnyProtocol => append(out, b"ip"),
        ProtocolMatch::OnlyTcp => append(out, b"tcp"),
        ProtocolMatch::OnlyUdp => append(out, b"udp"),
    }
}

fn append_transport(out: &mut Vec<u8>, proto: Protocol)
    requires { 3 ≤ spare out.old }
    ensures { Appends (transport_of proto) 3 out.old out.new }
{
    match proto {
        Protocol::Tcp => append(out, b"tcp"),
        Protocol::Udp => append(out, b"udp"),
    }
}

fn append_dotted(out: &mut Vec<u8>, address: u32)
    requires { 83 ≤ spare out.old }
    ensures { Appends (dotted address) 83 out.old out.new }
{
    append_number(out, u64::from(address >> 24));
    append_labelled(out, b".", u64::from((address >> 16) % 256));
    append_labelled(out, b".", u64::from((address >> 8) % 256));
    append_labelled(out, b".", u64::from(address % 256));
}

fn append_address_and_port(out: &mut Vec<u8>, address: u32, port: u16)
    requires { 104 ≤ spare out.old }
    ensures { Appends (address_and_port address port) 104 out.old out.new }
{
    append_dotted(out, address);
    append_labelled(out, b" ", u64::from(port));
}

/// Appends the fields of a packet's header.
pub fn append_header(out: &mut Vec<u8>, send: &SendSpec)
    requires { 234 ≤ spare out.old }
    ensures items { let s = send.now in
        out.new.items ≡ out.old.items ++ header_of s.proto s.src s.sport s.dst s.dport s.size }
    ensures room { spare out.old ≤ spare out.new + 234 }
    ensures capacity { vec_capacity out.old ≤ vec_capacity out.new }
{
    append_transport(out, send.proto);
    append(out, b" ");
    append_address_and_port(out, send.src, send.sport);
    append(out, b" ");
    append_address_and_port(out, send.dst, send.dport);
    append_labelled(out, b" ", u64::from(send.size.get()));
}

fn append_prefix(out: &mut Vec<u8>, prefix: Prefix)
    requires { 104 ≤ spare out.old }
    ensures { Appends (prefix_of prefix) 104 out.old out.new }
{
    let len = prefix.length().get();
    if len == 0 {
        return append(out, b"any");
    }
    append_dotted(out, prefix.address());
    if len == 32 {
        return;
    }
    append_labelled(out, b"/", u64::from(len));
}

fn append_ports(out: &mut Vec<u8>, ports: PortRange)
    requires { 41 ≤ spare out.old }
    ensures { Appends (ports_of ports) 41 out.old out.new }
{
    append_number(out, u64::from(ports.first()));
    if ports.first() == ports.last() {
        return;
    }
    append_labelled(out, b"-", u64::from(ports.last()));
}

/// Appends the source or the destination of a rule.
pub fn append_end(out: &mut Vec<u8>, prefix: Prefix, ports: Option<PortRange>)
    requires { 146 ≤ spare out.old }
    ensures { Appends (end_of prefix ports) 146 out.old out.new }
{
    append_prefix(out, prefix);
    let Some(ports) = ports else {
        return;
    };
    append(out, b" ");
    append_ports(out, ports);
}

/// Appends the limit of a queue, in slots or in KBytes of 1024 bytes.
pub fn append_queue(out: &mut Vec<u8>, queue: QueueLimit)
    requires { 26 ≤ spare out.old }
    ensures { Appends (queue_of queue) 26 out.old out.new }
{
    match queue {
        QueueLimit::Slots(limit) => append_number(out, u64::from(limit.get())),
        QueueLimit::KBytes(limit) => {
            append_number(out, u64::from(limit.get()));
            append(out, b"KBytes");
        }
    }
}

/// Appends a mask: its five fields in hexadecimal digits.
pub fn append_mask(out: &mut Vec<u8>, mask: Mask)
    requires { 30 ≤ spare out.old }
    ensures { Appends (mask_of mask) 30 out.old out.new }
{
    append_places(out, 16, 2, u32::from(mask.proto));
    append(out, b"/");
    append_places(out, 16, 8, mask.src);
    append(out, b"/");
    append_places(out, 16, 8, mask.dst);
    append(out, b"/");
    append_places(out, 16, 4, u32::from(mask.sport));
    append(out, b"/");
    append_places(out, 16, 4, u32::from(mask.dport));
}

/// Appends the discipline of a queue; for CoDel, with its target and interval (ns).
pub fn append_discipline(out: &mut Vec<u8>, discipline: Discipline)
    requires { 63 ≤ spare out.old }
    ensures { Appends (discipline_of discipline) 63 out.old out.new }
{
    match discipline {
        Discipline::TailDrop => append(out, b"droptail"),
        Discipline::ControlledDelay { target, interval } => {
            append_labelled(out, b"codel target ", target.get());
            append_labelled(out, b" interval ", interval.get());
        }
    }
}

//! A rule with its counters.

ghost use Rattle.std.specs.Prelude.{◌≡◌, ◌≤◌, ◌==◌, not};
ghost use Rattle.emu_model.specs.Rules.{place_of, rule_matches, count_packet, verdict_by, new_rule, default_rule};
ghost use Rattle.emu_rules.specs.Walk.{count_more, decision, one_more, target_of};

use crate::matching::matches;
use emu_model::{
    Action, Packet, Place, Prefix, PrefixLength, ProtocolMatch, Rule, RuleNumber, Verdict,
};
use std::marker::Model;

/// A rule, the number of rules that were added before it, and the numbers of packets and bytes that
/// it matched; each of the two counters saturates at 2^64 - 1.
#[derive(Clone, Copy)]
pub struct CountedRule {
    rule: Rule,
    order: u64,
    packets: u64,
    bytes: u64,
}

/// Numbers of packets and bytes; each of the two saturates at 2^64 - 1.
#[derive(Clone, Copy)]
pub struct Amount {
    packets: u64,
    bytes: u64,
}

impl Amount {
    /// Returns the amount zero.
    pub(crate) fn none() -> Self
        ensures { result ≡ record { packets = 0; bytes = 0 } }
    {
        Amount {
            packets: 0,
            bytes: 0,
        }
    }

    /// Returns true if the amount has a packet.
    #[inline(always)]
    pub(crate) fn is_some(&self) -> bool
        ensures { result ≡ not (self.now.packets == 0) }
    {
        self.packets != 0
    }

    /// Returns the amount with one more packet.
    #[inline(always)]
    pub(crate) fn and(self, packet: &Packet) -> Self
        ensures { result ≡ one_more packet.now.size self }
    {
        Amount {
            packets: self.packets.saturating_add(1),
            bytes: self.bytes.saturating_add(u64::from(packet.size.get())),
        }
    }

    /// Returns the amount of one packet.
    #[inline(always)]
    pub(crate) fn one(packet: &Packet) -> Self
        ensures { result ≡ record { packets = 1; bytes = packet.now.size } }
    {
        Amount {
            packets: 1,
            bytes: u64::from(packet.size.get()),
        }
    }
}

impl Model for CountedRule {
    ghost use Rattle.emu_model.specs.Rules.{Counted};

    ghost Value = { Counted };

    ghost view = { λ c. record {
      rule = c.rule;
      order = c.order;
      packets = c.packets;
      bytes = c.bytes;
    } };

    ghost inverse = { λ c. record {
      rule = c.rule;
      order = c.order;
      packets = c.packets;
      bytes = c.bytes;
    } };
}

impl CountedRule {
    /// Creates a rule that has matched no packet yet, given the number of rules that were added
    /// before it.
    pub fn new(rule: Rule, order: u64) -> Self
        ensures { result ≡ new_rule order rule }
    {
        CountedRule {
            rule,
            order,
            packets: 0,
            bytes: 0,
        }
    }

    /// Returns rule 65535: `deny ip from any to any`.
    pub fn last() -> Self
        ensures { result ≡ default_rule }
    {
        let any = Prefix::new(0, PrefixLength::new(0).unwrap());
        let rule = Rule {
            number: RuleNumber::new(65535).unwrap(),
            action: Action::Deny,
            proto: ProtocolMatch::AnyProtocol,
            src: any,
            sports: None,
            dst: any,
            dports: None,
        };
        CountedRule::new(rule, 0)
    }

    /// Returns the rule as it was added.
    pub fn rule(&self) -> Rule
        ensures { result ≡ self.now.rule }
    {
        self.rule // as it was added
    }

    /// Returns the number of packets that the rule matched.
    pub fn packets(&self) -> u64
        ensures { result ≡ self.now.packets }
    {
        self.packets // at most 2^64 - 1
    }

    /// Returns the bytes of the packets that the rule matched.
    pub fn bytes(&self) -> u64
        ensures { result ≡ self.now.bytes }
    {
        self.bytes // at most 2^64 - 1
    }

    /// Returns the rule's number, and the number of rules that were added before it.
    #[inline(always)]
    pub fn place(&self) -> Place
        ensures { result ≡ place_of self.now }
    {
        Place {
            number: self.rule.number,
            order: self.order,
        }
    }

    /// Returns the rule's number, 0 to 99999.
    pub fn number(&self) -> u32
        ensures number { result ≡ self.now.rule.number }
        ensures high { result ≤ 99999 }
    {
        self.rule.number.get()
    }

    #[inline(always)]
    pub(crate) fn matches(&self, packet: &Packet) -> bool
        ensures { result ≡ rule_matches packet.now self.now.rule }
    {
        matches(&self.rule, packet)
    }

    #[inline(always)]
    pub(crate) fn count(&mut self, packet: &Packet)
        ensures { self.new ≡ count_packet packet.now self.old }
    {
        self.packets = self.packets.saturating_add(1);
        self.bytes = self.bytes.saturating_add(u64::from(packet.size.get()));
    }

    /// Adds an amount of packets and bytes to the counters.
    #[inline(always)]
    pub(crate) fn count_more(&mut self, amount: Amount)
        ensures { self.new ≡ count_more amount self.old }
    {
        self.packets = self.packets.saturating_add(amount.packets);
        self.bytes = self.bytes.saturating_add(amount.bytes);
    }

    /// Returns the verdict of a search whose last match is this rule.
    #[inline(always)]
    pub(crate) fn verdict(&self) -> Verdict
        ensures { result ≡ verdict_by self.now.rule.action self.now }
    {
        match self.rule.action {
            Action::Allow => Verdict::OverTheLink,
            Action::Deny | Action::Count | Action::SkipTo(_) => Verdict::Dropped,
            Action::Pipe(pipe) => Verdict::IntoPipe(pipe, self.place()),
        }
    }

    /// Returns the verdict, if a search ends at this rule.
    #[inline(always)]
    pub(crate) fn decision(&self) -> Option<Verdict>
        ensures { result ≡ decision self.now.rule.action self.now }
    {
        match self.rule.action {
            Action::Allow => Some(Verdict::OverTheLink),
            Action::Deny => Some(Verdict::Dropped),
            Action::Count | Action::SkipTo(_) => None,
            Action::Pipe(pipe) => Some(Verdict::IntoPipe(pipe, self.place())),
        }
    }
}

/// Returns the number to which a rule jumps.
pub(crate) fn target_of(action: Action) -> Option<u32>
    ensures { result ≡ target_of action }
{
    match action {
        Action::SkipTo(number) => Some(number.get()),
        Action::Allow | Action::Deny | Action::Count | Action::Pipe(_) => None,
    }
}

//! The rule list.

ghost use Rattle.std.specs.Prelude.{◌≡◌, ◌≢◌, ◌^◌, ◌<◌, ◌∷◌, [], length, slice_get, Some, None, IfOk, OnOk, OnErr, MatchResult};
ghost use Rattle.emu_model.specs.Rules.{initial_book, add_refusal, book_with, delete_refusal, book_without, verdict, counted_book, start_behind, is_rule_number, the_rules, count_at};
ghost use Rattle.emu_rules.specs.Walk.{CountsAlone};
ghost use Rattle.emu_rules.specs.Errors.{refusal_of};

use crate::cache::RuleCache;
use crate::counted::{CountedRule, target_of};
use crate::search::{
    Match, NO_RULE, aim, classify, count_at, find, first_behind, first_from, judge_and_count,
};
use emu_model::{Packet, Place, Refusal, Rule, RuleNumber, Verdict};
use std::alloc::{AllocError, Global};
use std::marker::Model;

/// The reason why a rule wasn't added.
#[derive(Clone, Copy, PartialEq)]
pub enum AddError {
    Refused(Refusal),
    NoMemory,
}

/// Rules by number, those with the same number in the order in which they were added; the last is
/// rule 65535, `deny ip from any to any`.
#[derive(Drop)]
pub struct RuleList {
    rules: Vec<CountedRule>,
    /// For each place, the place at which a search that matched there continues.
    jumps: Vec<usize>,
    added: u64,
    /// The results of earlier searches among these rules, and their counts.
    cache: RuleCache,
}

impl Model for RuleList {
    ghost use Rattle.emu_model.specs.Rules.{RuleBook};
    ghost use Rattle.emu_rules.specs.RuleCache.{settled};
    ghost use Rattle.emu_rules.specs.Sound.{IsSound};

    ghost Value = { RuleBook };

    ghost view = { λ l. record { rules = settled l.cache l.rules.items; added = l.added } };

    ghost invariant = { λ l. IsSound l.rules.items l.jumps.items l.added l.cache };
}

impl RuleList {
    /// Creates a list with only the default rule.
    pub fn new(alloc: Global) -> Result<Self, AllocError>
        ensures { IfOk result (λ list. list ≡ initial_book) }
    {
        let mut rules = Vec::with_capacity(alloc, 1)?;
        let mut jumps = Vec::with_capacity(alloc, 1)?;
        rules.push_reserved(CountedRule::last());
        jumps.push_reserved(1);
        Ok(RuleList {
            rules,
            jumps,
            added: 0,
            cache: RuleCache::new(alloc),
        })
    }

    /// Adds a rule after those with its number. Fails, in this order, with `BadNumber` outside 1 to
    /// 65534, with `BadSkip` for a jump to its own number, backwards or above 65535, with
    /// `RulesFull` at 256 rules or after 2^64 - 1 additions, and with `NoMemory`. After an error
    /// the list is unchanged.
    pub fn add(&mut self, rule: Rule) -> Result<(), AddError>
        ensures ok { OnOk result (self.new ≡ book_with rule self.old) }
        ensures err { OnErr result (self.new ≡ self.old) }
        ensures refusal { MatchResult result
            (λ _. add_refusal rule self.old ≡ None)
            (λ e. add_refusal rule self.old ≡ refusal_of e) }
    {
        if let Some(refusal) = self.refusal(&rule) {
            return Err(AddError::Refused(refusal));
        }
        let counted = CountedRule::new(rule, self.added);
        if self.rules.reserve(1).is_err() || self.jumps.reserve(1).is_err() {
            return Err(AddError::NoMemory);
        }
        // Without places for cached searches, each search is a walk.
        let _places = self.cache.make_places(self.rules.len() + 1);
        self.cache.settle(&mut self.rules, &self.jumps); // before a rule is added
        let place = first_from(&self.rules, counted.number() + 1);
        let Ok(()) = self.rules.insert(place, counted) else {
            unreachable!()
        };
        self.jumps.push_reserved(0);
        aim(&self.rules, &mut self.jumps);
        self.cache.forget(); // a rule was added
        self.added += 1;
        Ok(())
    }

    /// Returns the reason why a rule can't be added, apart from memory.
    fn refusal(&self, rule: &Rule) -> Option<Refusal>
        ensures { result ≡ add_refusal rule.now self.now }
    {
        let number = rule.number.get();
        if !is_rule_number(rule.number) {
            return Some(Refusal::BadNumber);
        }
        if let Some(target) = target_of(rule.action)
            && (target <= number || target > DEFAULT)
        {
            return Some(Refusal::BadSkip);
        }
        if self.len() > MAX_RULES || self.added == u64::MAX {
            return Some(Refusal::RulesFull);
        }
        None
    }

    /// Deletes all rules with a number. Fails with `BadNumber` outside 1 to 65534, then with
    /// `NoRule` if there is none; the list is then unchanged. Does not allocate.
    pub fn delete(&mut self, number: RuleNumber) -> Result<(), Refusal>
        ensures ok { OnOk result (self.new ≡ book_without number self.old) }
        ensures err { OnErr result (self.new ≡ self.old) }
        ensures refusal { MatchResult result
            (λ _. delete_refusal number self.old ≡ None)
            (λ e. delete_refusal number self.old ≡ Some e) }
    {
        if !is_rule_number(number) {
            return Err(Refusal::BadNumber);
        }
        self.cache.settle(&mut self.rules, &self.jumps); // before rules are deleted
        let number = number.get();
        if !self.rules.iter().any(|counted| counted.number() == number) {
            return Err(Refusal::NoRule);
        }
        self.rules.retain(|counted| counted.number() != number);
        self.jumps.truncate(self.rules.len());
        aim(&self.rules, &mut self.jumps);
        self.cache.forget(); // rules were deleted
        Ok(())
    }

    /// Returns the verdict on a packet, which each rule that matches counts. Does not allocate.
    pub fn verdict(&mut self, packet: &Packet) -> Verdict
        ensures verdict { result ≡ verdict 0 packet.now self.old.rules }
        ensures counted { self.new ≡ counted_book 0 packet.now self.old }
    {
        judge_and_count(&mut self.cache, &mut self.rules, &self.jumps, 0, packet)
    }

    /// Returns the same verdict as `verdict`, but counts nothing.
    pub fn find(&self, packet: &Packet) -> Verdict
        ensures { result ≡ verdict 0 packet.now self.now.rules }
    {
        find(&self.rules, &self.jumps, 0, packet)
    }

    /// Returns the verdict of a search that starts after the place of a rule, which may be deleted:
    /// the packet has left the pipe to which that rule sent it (ipfw(8), one_pass).
    pub fn verdict_after(&mut self, place: Place, packet: &Packet) -> Verdict
        ensures verdict { let start = start_behind place self.old.rules in
            result ≡ verdict start packet.now self.old.rules }
        ensures counted { let start = start_behind place self.old.rules in
            self.new ≡ counted_book start packet.now self.old }
    {
        let start = first_behind(&self.rules, place);
        judge_and_count(&mut self.cache, &mut self.rules, &self.jumps, start, packet)
    }

    /// Returns the same verdict as `verdict_after`, but counts nothing. Does not allocate.
    pub fn find_after(&self, place: Place, packet: &Packet) -> Verdict
        ensures { let start = start_behind place self.now.rules in
            result ≡ verdict start packet.now self.now.rules }
    {
        let start = first_behind(&self.rules, place);
        find(&self.rules, &self.jumps, start, packet)
    }

    /// Returns the verdict of `find`, and the rule that gives it, and caches the search, so that a
    /// later one for a packet of this flow can use it. Does not allocate.
    #[inline(always)]
    pub fn classify_rule(&mut self, packet: &Packet) -> Match
        ensures verdict { result.verdict ≡ verdict 0 packet.now self.old.rules }
        ensures same { self.new ≡ self.old }
        ensures rule { result.rule ≢ NO_RULE →
            CountsAlone 0 packet.now (the_rules self.old.rules) result.rule }
    {
        classify(&mut self.cache, &mut self.rules, &self.jumps, 0, packet)
    }

    /// Classifies a packet like `classify_rule`, with a search that starts after the place of a
    /// rule.
    #[inline(always)]
    pub fn classify_rule_after(&mut self, place: Place, packet: &Packet) -> Match
        ensures verdict { let start = start_behind place self.old.rules in
            result.verdict ≡ verdict start packet.now self.old.rules }
        ensures same { self.new ≡ self.old }
        ensures rule { let start = start_behind place self.old.rules in result.rule ≢ NO_RULE →
            CountsAlone start packet.now (the_rules self.old.rules) result.rule }
    {
        let start = first_behind(&self.rules, place);
        classify(&mut self.cache, &mut self.rules, &self.jumps, start, packet)
    }

    /// Counts a packet at the rule at a place, as it was classified.
    #[inline(always)]
    pub fn count_at(&mut self, rule: usize, packet: &Packet)
        requires { rule < length self.old.rules }
        ensures { self.new ≡ record self.old {
          rules = count_at (rule ∷ []) packet.now 0 self.old.rules;
        } }
    {
        count_at(&mut self.rules, rule, packet);
    }

    /// Returns the number of rules, including the default.
    pub fn len(&self) -> usize
        ensures count { result ≡ length self.now.rules }
        ensures small { result < 2 ^ 63 }
    {
        self.rules.len()
    }

    /// Returns the rule at a place with its counters; the default is the last. Does not allocate.
    pub fn rule_at(&mut self, place: usize) -> CountedRule
        requires { place < length self.old.rules }
        ensures rule { slice_get self.old.rules place ≡ Some result }
        ensures same { self.new ≡ self.old }
    {
        self.cache.settle(&mut self.rules, &self.jumps); // before a rule is read
        self.rules[place]
    }
}

/// The number of the default.
const DEFAULT: u32 = 65535;

/// The maximum number of rules, not counting the default.
const MAX_RULES: usize = 256;

/// Returns true if a rule may be added or deleted under a number.
fn is_rule_number(number: RuleNumber) -> bool
    ensures { result ≡ is_rule_number number }
{
    1 <= number.get() && number.get() < DEFAULT
}

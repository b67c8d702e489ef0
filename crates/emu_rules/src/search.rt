//! The search among the rules: one walk over those that may match, by precomputed jumps, or the
//! cached search.

ghost use Rattle.std.specs.Prelude.{◌≡◌, ◌≢◌, ℕ, ◌<◌, ◌≤◌, ◌∷◌, [], length, slice_get, Some, None, option_and_then};
ghost use Rattle.emu_model.specs.Rules.{Counted, the_rules, least_match, place_of_number, start_behind, verdict, verdict_of_match, count_at, counted_rules};
ghost use Rattle.emu_rules.specs.Walk.{IsOrdered, AreJumps, CountsAlone, IsFound, IsRecounted, counted_more, decision};
ghost use Rattle.emu_rules.specs.RuleCache.{settled, AreTrueOf};

use crate::cache::{MAX_WALKED, RuleCache};
use crate::counted::{Amount, CountedRule, target_of};
use emu_model::{Packet, Place, Verdict};

/// The result of a search: the last place that matches, and that place again if no rule before it
/// counts the packet, otherwise `NO_RULE`.
#[derive(Clone, Copy)]
pub struct Found {
    last: Option<usize>,
    pub(crate) rule: usize,
}

/// Returns the first place at or after `from` whose rule matches.
#[inline(never)]
fn next_match(rules: &[CountedRule], from: usize, packet: &Packet) -> Option<usize>
    ensures { result ≡ least_match packet.now (the_rules rules.now) from }
{
    for place in from..rules.len() {
        let counted = &rules[place];
        if counted.matches(packet) {
            return Some(place);
        }
    }
    None
}

/// Finds a match like `next_match`, if few rules are left.
#[inline(always)]
fn near_match(rules: &[CountedRule], from: usize, packet: &Packet) -> Option<usize>
    ensures { result ≡ least_match packet.now (the_rules rules.now) from }
{
    for place in from..rules.len() {
        let counted = &rules[place];
        if counted.matches(packet) {
            return Some(place);
        }
    }
    None
}

/// Finds a match like `next_match`, but the code of a short search is inlined.
#[inline(always)]
fn first_match(rules: &[CountedRule], from: usize, packet: &Packet) -> Option<usize>
    ensures { result ≡ least_match packet.now (the_rules rules.now) from }
{
    if rules.len().saturating_sub(from) <= MAX_WALKED {
        return near_match(rules, from, packet);
    }
    next_match(rules, from, packet)
}

/// Walks from `start` to the rule that ends the search.
#[inline(always)]
fn search(rules: &[CountedRule], jumps: &[usize], start: usize, packet: &Packet) -> Found
    requires { AreJumps (the_rules rules.now) jumps.now }
    ensures { IsFound start packet.now (the_rules rules.now) result }
{
    let mut from = start;
    let mut last = None;
    let mut is_first = true;
    while let Some(place) = first_match(rules, from, packet) {
        let counted = &rules[place];
        if let Some(_verdict) = counted.decision() {
            let rule = if is_first { place } else { NO_RULE };
            return Found {
                last: Some(place),
                rule,
            };
        }
        last = Some(place);
        is_first = false;
        from = jumps[place];
    }
    Found {
        last,
        rule: NO_RULE,
    }
}

/// Returns true if a walk takes no more time than a cached search: few rules are left, or the first
/// one ends the search.
#[inline(always)]
fn is_short(rules: &[CountedRule], start: usize, packet: &Packet) -> bool {
    if rules.len().saturating_sub(start) <= MAX_WALKED {
        return true;
    }
    let first = &rules[start];
    first.matches(packet) && first.decision().is_some()
}

/// Returns the verdict of a search whose last match is at this place.
#[inline(always)]
fn verdict_at(rules: &[CountedRule], last: Option<usize>) -> Verdict
    ensures { result ≡ verdict_of_match (option_and_then (slice_get rules.now) last) }
{
    let Some(place) = last else {
        return Verdict::Dropped;
    };
    if place >= rules.len() {
        return Verdict::Dropped;
    }
    let rule = &rules[place];
    rule.verdict()
}

/// Returns the verdict of a search that starts at `start`.
pub(crate) fn find(rules: &[CountedRule], jumps: &[usize], start: usize, packet: &Packet) -> Verdict
    requires { AreJumps (the_rules rules.now) jumps.now }
    ensures { result ≡ verdict start packet.now rules.now }
{
    let found = search(rules, jumps, start, packet);
    verdict_at(rules, found.last)
}

/// Returns the verdict like `find`, and adds an amount of packets and bytes to each rule that
/// matches.
#[inline(always)]
pub(crate) fn walk_and_count(
    rules: &mut [CountedRule],
    jumps: &[usize],
    start: usize,
    packet: &Packet,
    amount: Amount,
) -> Verdict
    requires { AreJumps (the_rules rules.old) jumps.now }
    ensures verdict { result ≡ verdict start packet.now rules.old }
    ensures rules { rules.new ≡ counted_more start packet.now amount rules.old }
{
    let mut from = start;
    while let Some(place) = first_match(rules, from, packet) {
        let counted = &mut rules[place];
        counted.count_more(amount);
        if let Some(verdict) = counted.decision() {
            return verdict;
        }
        from = jumps[place];
    }
    Verdict::Dropped
}

/// Returns the verdict like `find`. Each rule that matches counts the packet, or its cached search
/// does, if there is one.
pub(crate) fn judge_and_count(
    cache: &mut RuleCache,
    rules: &mut [CountedRule],
    jumps: &[usize],
    start: usize,
    packet: &Packet,
) -> Verdict
    requires jumps { AreJumps (the_rules rules.old) jumps.now }
    requires cache { AreTrueOf (the_rules rules.old) cache.old }
    ensures verdict { result ≡ verdict start packet.now rules.old }
    ensures counted { settled cache.new rules.new
        ≡ counted_rules start packet.now (settled cache.old rules.old) }
    ensures rules { IsRecounted rules.old rules.new }
    ensures cache { AreTrueOf (the_rules rules.old) cache.new }
{
    if is_short(rules, start, packet) {
        return walk_and_count(rules, jumps, start, packet, Amount::one(packet));
    }
    count_far(cache, rules, jumps, start, packet)
}

/// Returns the verdict like `judge_and_count`, if many rules are left.
#[inline(never)]
fn count_far(
    cache: &mut RuleCache,
    rules: &mut [CountedRule],
    jumps: &[usize],
    start: usize,
    packet: &Packet,
) -> Verdict
    requires jumps { AreJumps (the_rules rules.old) jumps.now }
    requires cache { AreTrueOf (the_rules rules.old) cache.old }
    ensures verdict { result ≡ verdict start packet.now rules.old }
    ensures counted { settled cache.new rules.new
        ≡ counted_rules start packet.now (settled cache.old rules.old) }
    ensures rules { IsRecounted rules.old rules.new }
    ensures cache { AreTrueOf (the_rules rules.old) cache.new }
{
    let seat = cache.seek(start, packet);
    if !seat.is_taken {
        return walk_and_count(rules, jumps, start, packet, Amount::one(packet));
    }
    let found = cache.count(seat.place, packet);
    let verdict = verdict_at(rules, found.last);
    if found.rule != NO_RULE {
        count_at(rules, found.rule, packet);
    }
    verdict
}

/// The classification of a packet: the verdict, and the place of the rule that gives it if no rule
/// before it counts the packet, otherwise `NO_RULE`.
#[derive(Clone, Copy)]
pub struct Match {
    pub verdict: Verdict,
    pub rule: usize,
}

/// The place that means that no rule alone counts the packet.
pub const NO_RULE: usize = usize::MAX;

/// Converts the result of a search into a verdict and a rule.
#[inline(always)]
fn match_of(rules: &[CountedRule], found: Found) -> Match
    ensures verdict { result.verdict
        ≡ verdict_of_match (option_and_then (slice_get rules.now) found.last) }
    ensures rule { result.rule ≡ found.rule }
{
    Match {
        verdict: verdict_at(rules, found.last),
        rule: found.rule,
    }
}

/// Returns the verdict like `find`, and the rule that gives it; if many rules are left, caches the
/// search.
#[inline(always)]
pub(crate) fn classify(
    cache: &mut RuleCache,
    rules: &mut [CountedRule],
    jumps: &[usize],
    start: usize,
    packet: &Packet,
) -> Match
    requires jumps { AreJumps (the_rules rules.old) jumps.now }
    requires cache { AreTrueOf (the_rules rules.old) cache.old }
    ensures verdict { result.verdict ≡ verdict start packet.now rules.old }
    ensures rule { result.rule ≢ NO_RULE →
        CountsAlone start packet.now (the_rules rules.old) result.rule }
    ensures none { result.rule ≡ NO_RULE → (k : ℕ) (c : Counted) →
        least_match packet.now (the_rules rules.old) start ≡ Some k →
        slice_get rules.old k ≡ Some c → decision c.rule.action c ≡ None }
    ensures same { settled cache.new rules.new ≡ settled cache.old rules.old }
    ensures rules { IsRecounted rules.old rules.new }
    ensures cache { AreTrueOf (the_rules rules.old) cache.new }
{
    if is_short(rules, start, packet) {
        let found = search(rules, jumps, start, packet);
        return match_of(rules, found);
    }
    let found = far_search(cache, rules, jumps, start, packet);
    match_of(rules, found)
}

/// Searches if many rules are left: uses the cached search, or else walks and caches the result.
#[inline(never)]
fn far_search(
    cache: &mut RuleCache,
    rules: &mut [CountedRule],
    jumps: &[usize],
    start: usize,
    packet: &Packet,
) -> Found
    requires jumps { AreJumps (the_rules rules.old) jumps.now }
    requires cache { AreTrueOf (the_rules rules.old) cache.old }
    ensures found { IsFound start packet.now (the_rules rules.old) result }
    ensures same { settled cache.new rules.new ≡ settled cache.old rules.old }
    ensures rules { IsRecounted rules.old rules.new }
    ensures cache { AreTrueOf (the_rules rules.old) cache.new }
{
    let seat = cache.seek(start, packet);
    if seat.is_taken {
        return cache.recall(seat.place);
    }
    let found = search(rules, jumps, start, packet);
    cache.remember(seat.place, rules, jumps, start, packet, found);
    found
}

/// Counts a packet at the rule at a place.
#[inline(always)]
pub(crate) fn count_at(rules: &mut [CountedRule], place: usize, packet: &Packet)
    requires { place < length rules.old }
    ensures { rules.new ≡ count_at (place ∷ []) packet.now 0 rules.old }
{
    rules[place].count(packet);
}

/// Returns the first place whose rule's number is `number` or higher.
pub(crate) fn first_from(rules: &[CountedRule], number: u32) -> usize
    requires { IsOrdered rules.now }
    ensures within { result ≤ length rules.now }
    ensures first { result ≡ place_of_number number (the_rules rules.now) }
{
    rules.partition_point(|counted| counted.number() < number)
}

/// Returns the first place after that of a rule, which may be deleted.
pub(crate) fn first_behind(rules: &[CountedRule], place: Place) -> usize
    requires { IsOrdered rules.now }
    ensures { result ≡ start_behind place rules.now }
{
    rules.partition_point(|counted| {
        let own = counted.place();
        own.number.get() < place.number.get()
            || (own.number.get() == place.number.get() && own.order <= place.order)
    })
}

/// Writes, for each place, the place at which a search that matched there continues.
pub(crate) fn aim(rules: &[CountedRule], jumps: &mut [usize])
    requires same { length jumps.old ≡ length rules.now }
    requires ordered { IsOrdered rules.now }
    ensures { AreJumps (the_rules rules.now) jumps.new }
{
    for place in 0..rules.len() {
        let counted = &rules[place];
        jumps[place] = match target_of(counted.rule().action) {
            Some(number) => first_from(rules, number),
            None => place + 1,
        };
    }
}

//! Cached searches: the results of whole searches, so that a later packet of the same flow needs no
//! walk. A cached search counts its packets itself. Its counts are added to the rules when somebody
//! reads them, when the rules change, and when another cached search takes its place.

ghost use Rattle.std.specs.Prelude.{◌≡◌, ◌≢◌, ℕ, ◌<◌, List, [], false, IsTrue, OnOk, vec_len};
ghost use Rattle.emu_model.specs.declared.packets.Packet.{Packet};
ghost use Rattle.emu_model.specs.declared.rules.Rule.{Rule};
ghost use Rattle.emu_model.specs.Rules.{Counted, the_rules, counted_rules};
ghost use Rattle.emu_rules.specs.Walk.{AreJumps, IsFound, IsRecounted, counted_more};
ghost use Rattle.emu_rules.specs.RuleCache.{AreTrueOf, IsHeldAt, IsSearchOf, emptied, flow_packet, settled, settled_by, with_one};

use crate::counted::{Amount, CountedRule};
use crate::search::{Found, NO_RULE, walk_and_count};
use emu_model::{Load, Packet, Place, Protocol, RuleNumber, Size};
use std::alloc::{AllocError, Global};
use unchecked::unreachable_unchecked;

/// The result of a search from a place on for the packets of one flow, and the counts that the
/// rules don't have yet.
#[derive(Clone, Copy)]
struct CachedSearch {
    /// The age of the cache when the search was cached.
    age: u64,
    from: usize,
    proto: Protocol,
    src: u32,
    sport: u16,
    dst: u32,
    dport: u16,
    found: Found,
    counted: Amount,
}

impl CachedSearch {
    /// Returns true if this is the cached search of this packet from this place on.
    #[inline(always)]
    fn is_of(&self, age: u64, from: usize, packet: &Packet) -> bool
        ensures { IsTrue result → IsSearchOf age from packet.now self.now }
    {
        self.age == age
            && self.from == from
            && self.src == packet.src
            && self.sport == packet.sport
            && self.dst == packet.dst
            && self.dport == packet.dport
            && self.proto == packet.proto
    }

    /// Returns the cached search after it has counted one more packet.
    #[inline(always)]
    fn with_packet(&self, packet: &Packet) -> Self
        ensures { result ≡ with_one packet.now.size self.now }
    {
        CachedSearch {
            counted: self.counted.and(packet),
            ..*self
        }
    }

    /// Returns a packet of the flow.
    fn packet(&self) -> Packet
        ensures { result ≡ flow_packet self.now }
    {
        Packet {
            proto: self.proto,
            src: self.src,
            sport: self.sport,
            dst: self.dst,
            dport: self.dport,
            size: Size::new(40).unwrap(),
            number: 0,
            load: Load::Plain,
            place: Place {
                number: RuleNumber::new(0).unwrap(),
                order: 0,
            },
        }
    }
}

/// A place for a packet's cached search, and whether the search is there.
#[derive(Clone, Copy)]
pub(crate) struct Seat {
    pub(crate) place: usize,
    pub(crate) is_taken: bool,
}

/// The cached searches of the most recent flows among the same rules. If only one rule counts a
/// packet, that rule counts it itself.
#[derive(Drop)]
pub struct RuleCache {
    /// Empty, or one entry for each place.
    held: Vec<Option<CachedSearch>>,
    /// The age that a cached search must have to be valid.
    age: u64,
    /// The place at which the last search was cached, or found.
    latest: usize,
    /// True if a cached search may have counts that the rules don't have yet.
    is_pending: bool,
}

impl RuleCache {
    /// Creates an empty cache without places.
    pub fn new(alloc: Global) -> Self
        ensures true_of { (rules : List Rule) → AreTrueOf rules result }
        ensures none { result.held.items ≡ [] }
    {
        RuleCache {
            held: Vec::new(alloc),
            age: 0,
            latest: 0,
            is_pending: false,
        }
    }

    /// Allocates the places for searches among `rules` rules, unless they exist or such searches
    /// use none. Keeps everything that is cached.
    pub fn make_places(&mut self, rules: usize) -> Result<(), AllocError>
        ensures kept { (all : List Rule) → AreTrueOf all self.old → AreTrueOf all self.new }
        ensures same { (cs : List Counted) → settled self.new cs ≡ settled self.old cs }
        ensures made { OnOk result (4 < rules → 0 < vec_len self.new.held) }
    {
        if rules <= MAX_WALKED || !self.held.is_empty() {
            return Ok(());
        }
        self.held.reserve_exact(PLACES)?;
        for _ in 0..PLACES {
            self.held.push_reserved(None);
        }
        Ok(())
    }

    /// Invalidates all cached searches, because the rules change. Does not allocate.
    pub fn forget(&mut self)
        ensures forgot { (before after : List Rule) → AreTrueOf before self.old →
            AreTrueOf after self.new }
        ensures same { (cs : List Counted) → (before : List Rule) → AreTrueOf before self.old →
            self.old.is_pending ≡ false → settled self.new cs ≡ cs }
    {
        match self.age.checked_add(1) {
            Some(next) => self.age = next,
            None => self.held.clear(),
        }
    }

    /// Returns the place of a packet's cached search, or the place where it would be. Checks the
    /// latest place first, because a packet that was just classified comes next.
    #[inline(always)]
    pub(crate) fn seek(&self, from: usize, packet: &Packet) -> Seat
        ensures { IsTrue result.is_taken → IsHeldAt from packet.now result.place self.now }
    {
        if self.is_at(self.latest, from, packet) {
            return Seat {
                place: self.latest,
                is_taken: true,
            };
        }
        let home = home_of(from, packet);
        for step in 0..TRIED {
            let place = home.wrapping_add(step) % PLACES;
            if self.is_at(place, from, packet) {
                return Seat {
                    place,
                    is_taken: true,
                };
            }
            if self.is_free(place) {
                return Seat {
                    place,
                    is_taken: false,
                };
            }
        }
        Seat {
            place: home,
            is_taken: false,
        }
    }

    /// Returns true if the cached search of a packet is at a place.
    #[inline(always)]
    fn is_at(&self, place: usize, from: usize, packet: &Packet) -> bool
        ensures { IsTrue result → IsHeldAt from packet.now place self.now }
    {
        let Some(slot) = self.held.get(place) else {
            return false;
        };
        let Some(path) = slot else {
            return false;
        };
        path.is_of(self.age, from, packet)
    }

    /// Returns true if there is no valid cached search at a place.
    #[inline(always)]
    fn is_free(&self, place: usize) -> bool {
        let Some(slot) = self.held.get(place) else {
            return true;
        };
        match slot {
            Some(path) => path.age != self.age,
            None => true,
        }
    }

    /// Returns the result of the cached search at a place, and makes it the latest, because the
    /// next packet is probably of its flow.
    #[inline(always)]
    pub(crate) fn recall(&mut self, place: usize) -> Found
        requires { (start : ℕ) × (p : Packet) × IsHeldAt start p place self.old }
        ensures found { (rules : List Rule) (start : ℕ) (p : Packet) → AreTrueOf rules self.old →
            IsHeldAt start p place self.old → IsFound start p rules result }
        ensures same { self.new ≡ record self.old { latest = place } }
    {
        self.latest = place;
        let Some(path) = self.held[place] else {
            unreachable_unchecked!()
        };
        path.found
    }

    /// Returns the result of the cached search at a place. If more than one rule counts the packet,
    /// the cached search counts it for them.
    #[inline(always)]
    pub(crate) fn count(&mut self, place: usize, packet: &Packet) -> Found
        requires { (start : ℕ) × IsHeldAt start packet.now place self.old }
        ensures found { (rules : List Rule) (start : ℕ) → AreTrueOf rules self.old →
            IsHeldAt start packet.now place self.old → IsFound start packet.now rules result }
        ensures counted { result.rule ≡ NO_RULE → (cs : List Counted) (start : ℕ) →
            AreTrueOf (the_rules cs) self.old → IsHeldAt start packet.now place self.old →
            settled self.new cs ≡ counted_rules start packet.now (settled self.old cs) }
        ensures alone { result.rule ≢ NO_RULE → self.new ≡ self.old }
        ensures kept { (rules : List Rule) → AreTrueOf rules self.old → AreTrueOf rules self.new }
    {
        let Some(path) = self.held[place] else {
            unreachable_unchecked!()
        };
        if path.found.rule != NO_RULE {
            return path.found;
        }
        self.held[place] = Some(path.with_packet(packet));
        self.is_pending = true;
        path.found
    }

    /// Caches, at a place, the result of a search for this packet from a place among the rules on.
    pub(crate) fn remember(
        &mut self,
        place: usize,
        rules: &mut [CountedRule],
        jumps: &[usize],
        from: usize,
        packet: &Packet,
        found: Found,
    )
        requires jumps { AreJumps (the_rules rules.old) jumps.now }
        requires cache { AreTrueOf (the_rules rules.old) self.old }
        requires found { IsFound from packet.now (the_rules rules.old) found }
        ensures same { settled self.new rules.new ≡ settled self.old rules.old }
        ensures rules { IsRecounted rules.old rules.new }
        ensures cache { AreTrueOf (the_rules rules.old) self.new }
    {
        if place >= self.held.len() {
            return;
        }
        let path = CachedSearch {
            age: self.age,
            from,
            proto: packet.proto,
            src: packet.src,
            sport: packet.sport,
            dst: packet.dst,
            dport: packet.dport,
            found,
            counted: Amount::none(),
        };
        let _emptied = settle_path(&self.held[place], rules, jumps);
        self.held[place] = Some(path);
        self.latest = place;
    }

    /// Adds everything that the cached searches have counted to the rules.
    pub fn settle(&mut self, rules: &mut [CountedRule], jumps: &[usize])
        requires jumps { AreJumps (the_rules rules.old) jumps.now }
        requires cache { AreTrueOf (the_rules rules.old) self.old }
        ensures rules { rules.new ≡ settled self.old rules.old }
        ensures cache { AreTrueOf (the_rules rules.old) self.new }
        ensures settled { self.new.is_pending ≡ false }
        ensures none { (cs : List Counted) → settled self.new cs ≡ cs }
    {
        if !self.is_pending {
            return;
        }
        for place in 0..self.held.len() {
            let path = settle_path(&self.held[place], rules, jumps);
            self.held[place] = path;
        }
        self.is_pending = false;
    }
}

/// Adds what a cached search has counted to the rules, and returns the search without counts.
#[inline(always)]
fn settle_path(
    held: &Option<CachedSearch>,
    rules: &mut [CountedRule],
    jumps: &[usize],
) -> Option<CachedSearch>
    requires { AreJumps (the_rules rules.old) jumps.now }
    ensures rules { rules.new ≡ settled_by held.now rules.old }
    ensures path { result ≡ emptied held.now }
{
    let Some(path) = held else {
        return None;
    };
    if path.counted.is_some() {
        walk_path(rules, jumps, path);
    }
    Some(CachedSearch {
        counted: Amount::none(),
        ..*path
    })
}

/// Adds what a cached search has counted to the rules on its path.
#[inline(never)]
fn walk_path(rules: &mut [CountedRule], jumps: &[usize], path: &CachedSearch)
    requires { AreJumps (the_rules rules.old) jumps.now }
    ensures { rules.new
        ≡ counted_more path.now.from (flow_packet path.now) path.now.counted rules.old }
{
    let packet = path.packet();
    walk_and_count(rules, jumps, path.from, &packet, path.counted);
}

/// The number of rules up to which a walk takes no more time than a cached search.
pub(crate) const MAX_WALKED: usize = 4;

/// The maximum number of cached searches.
const PLACES: usize = 1024;

/// The number of places at which a cached search may be.
const TRIED: usize = 4;

/// Returns the first place at which a cached search may be: the ten highest bits of products with
/// odd numbers.
pub(crate) fn home_of(from: usize, packet: &Packet) -> usize {
    let ends = u64::from(packet.src) << 32 | u64::from(packet.dst);
    let rest = u64::from(packet.sport) << 48 | u64::from(packet.dport) << 32 | from as u64;
    let mixed = ends.wrapping_mul(0x9e37_79b9_7f4a_7c15) ^ rest.wrapping_mul(0xc2b2_ae3d_27d4_eb4f);
    (mixed >> 54) as usize
}

//! A cache of routes. A packet has a route if only one rule counts it, and that rule sends it to an
//! instance that exists. All packets of a source have one header, which never changes, so the
//! source's route is cached on a line of its own until the next command (our choice).

ghost use Rattle.std.specs.Prelude.{◌≡◌, ◌<◌, [], List, Some, IfSome, IfNone, IsTrue, slice_get};
ghost use Rattle.emu_model.specs.Rules.{Counted};
ghost use Rattle.pipe_core.specs.Keyed.{KeyedPipe};
ghost use Rattle.sources.specs.Standing.{Heads, IsPlace, reply_at, send_at};
ghost use Rattle.network.specs.declared.flow_cache.CacheEntry.{CacheEntry};
ghost use Rattle.network.specs.FlowCache.{IsRoute, AreKnown, header_on, plain};

use emu_model::{PipeNumber, Place, SendSpec};
use sources::SourcePlace;
use std::alloc::Global;
use std::marker::Model;

/// The place of the rule, the place that the packet records, the pipe's number, and the places of
/// the pipe and the instance.
#[derive(Clone, Copy)]
pub struct Route {
    pub rule: usize,
    pub place: Place,
    pub number: PipeNumber,
    pub pipe: usize,
    pub instance: usize,
}

/// How to route a packet with a header: by the route that is cached on a line, or by a search.
#[derive(Clone, Copy)]
pub enum Lookup {
    Cached(usize),
    Searched,
}

/// The route of the packets with a header.
#[derive(Clone, Copy)]
pub struct CacheEntry {
    pub send: SendSpec,
    pub route: Route,
}

/// The maximum number of flows, and of trains.
const SOURCES: usize = 256;

/// Returns the line for the route of a source's packets.
#[inline(always)]
pub(crate) fn line_of(source: &SourcePlace) -> usize
    requires { IsPlace source.now }
    ensures few { result < 768 }
    ensures header { (h : Heads) → header_on result h ≡ send_at source.now h }
{
    match source {
        SourcePlace::Flow(place) => *place,
        SourcePlace::Train(place) => SOURCES + *place,
    }
}

/// Returns the line for the route of the acknowledgements of the flow at a place.
#[inline(always)]
pub(crate) fn reply_line_of(place: usize) -> usize
    requires { place < 256 }
    ensures few { result < 768 }
    ensures header { (h : Heads) → header_on result h ≡ reply_at place h }
{
    2 * SOURCES + place
}

/// The cached routes.
#[derive(Drop)]
pub struct FlowCache {
    lines: Vec<Option<CacheEntry>>,
}

impl Model for FlowCache {
    ghost use Rattle.std.specs.Prelude.{List, Option};
    ghost use Rattle.network.specs.declared.flow_cache.CacheEntry.{CacheEntry};

    ghost Value = { List (Option CacheEntry) };

    ghost view = { λ w. w.lines.items };
}

impl FlowCache {
    /// Creates an empty cache. Does not allocate.
    pub(crate) fn new(alloc: Global) -> Self
        ensures { result ≡ [] }
    {
        FlowCache {
            lines: Vec::new(alloc),
        }
    }

    /// Removes all routes. Keeps the allocation.
    pub(crate) fn clear(&mut self)
        ensures { self.new ≡ [] }
    {
        self.lines.clear();
    }

    /// Returns the entry of this line.
    #[inline(always)]
    pub(crate) fn at(&self, line: usize) -> Option<&CacheEntry>
        ensures some { IfSome result (λ r. slice_get self.now line ≡ Some (Some r.now)) }
        ensures none { IfNone result
            ((r : CacheEntry) → slice_get self.now line ≡ Some (Some r) → ⊥) }
    {
        self.lines.get(line)?.as_ref()
    }

    /// Caches a route, and returns true, unless allocation fails.
    #[tactic(auto, using(crate::proofs::RouteFacts::known_more, crate::proofs::RouteFacts::known_learned))]
    #[inline(never)]
    pub(crate) fn insert(&mut self, line: usize, send: &SendSpec, route: &Route) -> bool
        requires { line < 768 }
        ensures known { (cs : List Counted) (ps : List KeyedPipe) (h : Heads) →
            AreKnown cs ps h self.old → header_on line h ≡ Some send.now →
            IsRoute 0 (plain send.now) route.now cs ps → AreKnown cs ps h self.new }
        ensures there { IsTrue result → slice_get self.new line
            ≡ Some (Some (record { send = send.now; route = route.now })) }
    {
        while self.lines.len() <= line {
            if self.lines.push(None).is_err() {
                return false;
            }
        }
        self.lines[line] = Some(CacheEntry {
            send: *send,
            route: *route,
        });
        true
    }
}

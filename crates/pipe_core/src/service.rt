//! The service of an instance: a key, in a busy period.

ghost use Rattle.std.specs.Prelude.{◌≡◌, ◌*◌, ◌<◌, Some, None, option_map, is_some, IsSome};
ghost use Rattle.std.specs.Option.{ForSome};
ghost use Rattle.emu_model.specs.Moments.{IsMoment};
ghost use Rattle.emu_model.specs.Rate.{begin};
ghost use Rattle.emu_model.specs.Pipes.{cut_service};
ghost use Rattle.pipe_core.specs.Serving.{after_service, with_key};

use emu_model::{Bandwidth, Size};
use link_core::RateServer;
use packet_store::Key;
use queue_disc::Queued;
use std::marker::Model;

/// A rate server, and the key of the packet in service.
#[derive(Drop)]
pub(crate) struct Service {
    key: Option<Key>,
    server: RateServer,
}

impl Model for Service {
    ghost use Rattle.std.specs.Prelude.{◌≡◌, is_some};
    ghost use Rattle.pipe_core.specs.KeyedInstance.{KeyedService};

    ghost Value = { KeyedService };

    ghost use Rattle.pipe_core.specs.Serving.{in_service};

    ghost view = { λ s. record { bw = s.server.bw; busy = in_service s.key s.server.busy } };

    ghost invariant = { λ s. is_some s.key ≡ is_some s.server.busy };
}

impl Service {
    /// Creates an idle server.
    pub(crate) fn new(bw: Bandwidth) -> Self
        ensures { result ≡ record { bw = bw; busy = None } }
    {
        Service {
            key: None,
            server: RateServer::new(bw),
        }
    }

    /// Returns the key of the packet in service.
    #[inline(always)]
    pub(crate) fn key(&self) -> Option<Key>
        ensures { result ≡ option_map (λ s. s.item) self.now.busy }
    {
        self.key
    }

    /// Returns true if a packet is in service.
    #[inline(always)]
    pub(crate) fn is_busy(&self) -> bool
        ensures { result ≡ is_some self.now.busy }
    {
        self.key.is_some()
    }

    /// Returns the finish (ns) of the packet in service.
    #[inline(always)]
    pub(crate) fn due(&self) -> Option<u64>
        ensures { result ≡ option_map (λ s. s.period.finish) self.now.busy }
    {
        self.server.due()
    }

    /// Starts a busy period at `now` (ns).
    #[inline(always)]
    pub(crate) fn start(&mut self, key: Key, size: Size, now: u64)
        requires early { IsMoment now }
        ensures { self.new
            ≡ record self.old {
              busy = Some
                  (record { item = key; period = begin self.old.bw now size });
            } }
    {
        self.server.start(now, size);
        self.key = Some(key);
    }

    /// Starts the service of the next packet at a finish, or ends the busy period if there is none.
    #[inline(always)]
    pub(crate) fn follow(&mut self, given: Option<Queued<Key>>)
        requires busy { IsSome self.old.busy }
        requires early { ForSome self.old.busy (λ s. IsMoment s.period.finish) }
        ensures { self.new
            ≡ record self.old { busy = after_service self.old.bw self.old.busy given } }
    {
        match given {
            Some(next) => {
                self.server.follow(next.size);
                self.key = Some(next.item);
            }
            None => {
                self.server.rest();
                self.key = None;
            }
        }
    }

    /// Replaces the key of the packet in service.
    pub(crate) fn replace(&mut self, key: Key)
        requires { IsSome self.old.busy }
        ensures { self.new ≡ record self.old { busy = option_map (with_key key) self.old.busy } }
    {
        self.key = Some(key);
    }

    /// Changes the rate. The packet in service keeps its finish, and the next packet starts a busy
    /// period there.
    pub(crate) fn configure(&mut self, bw: Bandwidth)
        ensures { self.new ≡ record { bw = bw; busy = option_map cut_service self.old.busy } }
    {
        self.server.configure(bw);
    }
}

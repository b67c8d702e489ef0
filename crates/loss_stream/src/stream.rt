//! The stream of loss words of one instance.

ghost use Rattle.std.specs.Prelude.{◌≡◌, ◌+◌, ◌-◌, ◌^◌, min};
ghost use Rattle.emu_model.specs.Loss.{is_lost, loss_word};

use emu_model::{LossRate, PipeNumber, laws};
use rand_chacha::ChaCha20Rng;
use rand_core::SeedableRng;
use rand_core::utils::NextWord;
use std::marker::Model;

/// The number of streams that are reserved for the instances of each pipe.
const STREAMS_PER_PIPE: u64 = 65536;

/// The loss words of one instance of a pipe, one for each packet. Contracts see the seed, the pipe
/// and the instance, and the number of words drawn.
#[derive(Drop)]
pub struct LossStream {
    seed: u64,
    pipe: PipeNumber,
    instance: u8,
    drawn: u128,
    // The generator's place: a word that is compared with no rate isn't computed.
    place: u128,
    words: ChaCha20Rng,
}

impl Model for LossStream {
    ghost use Rattle.std.specs.Prelude.{◌≡◌};
    ghost use Rattle.loss_stream.specs.Draws.{Draws, words_of};

    ghost Value = { Draws };

    ghost view = { λ s. record {
      seed = s.seed;
      pipe = s.pipe;
      instance = s.instance;
      drawn = s.drawn;
    } };

    ghost invariant = { λ s. s.words ≡ words_of s.seed s.pipe s.instance s.place };
}

impl LossStream {
    /// Creates the stream for an experiment's seed, a pipe's number and an instance's, at its first
    /// word.
    pub fn new(seed: u64, pipe: PipeNumber, instance: u8) -> Self
        ensures { result ≡ record { seed = seed; pipe = pipe; instance = instance; drawn = 0 } }
    {
        let s = seed.to_le_bytes();
        let key = [
            s[0], s[1], s[2], s[3], s[4], s[5], s[6], s[7], 0, 0, 0, 0, 0, 0, 0, 0, 0, 0, 0, 0, 0,
            0, 0, 0, 0, 0, 0, 0, 0, 0, 0, 0,
        ];
        let mut words = ChaCha20Rng::from_seed(key);
        words.set_stream(u64::from(pipe.get() - 1) * STREAMS_PER_PIPE + u64::from(instance));
        LossStream {
            seed,
            pipe,
            instance,
            drawn: 0,
            place: 0,
            words,
        }
    }

    // Returns the word at a place (RFC 8439, ChaCha20).
    #[inline(never)]
    fn word(&mut self, place: u128) -> u32
        ensures word { result ≡ loss_word self.old.seed self.old.pipe self.old.instance place }
        ensures same { self.new ≡ self.old }
    {
        if self.place != place {
            self.words.set_word_pos(place);
        }
        let word = self.words.next_word();
        match place.checked_add(1) {
            Some(next) => self.place = next,
            None => {
                self.words.set_word_pos(place);
                self.place = place;
            }
        }
        word
    }

    /// Draws the word of the next packet, at every rate, and returns true if the packet is lost.
    /// The count saturates at 2^128 - 1. At the rates 0 and 1 no word is computed, because the
    /// result doesn't depend on it.
    #[inline(always)]
    pub fn lose(&mut self, plr: LossRate) -> bool
        ensures answer { result
            ≡ is_lost self.old.seed self.old.pipe self.old.instance self.old.drawn plr }
        ensures drawn { self.new
            ≡ record self.old { drawn = min (self.old.drawn + 1) (2 ^ 128 - 1) } }
    {
        laws::loss_has_its_extremes();
        let place = self.drawn;
        match place.checked_add(1) {
            Some(next) => self.drawn = next,
            None => {}
        }
        match plr.get() {
            0 => false,
            1_000_000 => true,
            rate => u64::from(self.word(place)) * 1_000_000 < u64::from(rate) * 0x1_0000_0000,
        }
    }

    /// Returns the number of words drawn, which is the place of the next one.
    pub fn drawn(&self) -> u128
        ensures { result ≡ self.now.drawn }
    {
        self.drawn
    }
}

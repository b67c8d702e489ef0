//! The move of packets from one shelf to another, together with their holders.

ghost use Rattle.std.specs.Prelude.{◌≡◌, ◌+◌, ◌<◌, ◌≤◌, [], ◌∷◌, map, length};
ghost use Rattle.packet_store.specs.Pocket.{OthersStay};
ghost use Rattle.pipe_core.specs.KeyedInstance.{keys_in, seen_line};
ghost use Rattle.pipe_core.specs.Blanks.{blank};
ghost use Rattle.pipe_core.specs.Moves.{packet_at, AreNamed};
ghost use Rattle.pipe_core.specs.Keyed.{keys_of};
ghost use Rattle.pipe_core.specs.Rehousing.{Rehouses, blank_slot};

use crate::Instance;
use crate::slot::Slot;
use link_core::DelayLine;
use packet_store::{Key, Owner, Shelf};

/// Moves one packet to a shelf that has room for it, and returns its new key.
fn rehouse_one<S: Shelf, T: Shelf>(
    key: Key,
    from: &mut S,
    owner: Owner,
    to: &mut T,
    other: Owner,
) -> Key
    requires named { AreNamed (S.pocket from.old owner) (key ∷ []) }
    requires budget { (T.pocket to.old other).count < (T.pocket to.old other).budget }
    requires room { 0 < T.room to.old other }
    ensures moved { Rehouses (S.pocket from.old owner) (S.pocket from.new owner)
        (T.pocket to.old other) (T.pocket to.new other) (key ∷ []) (result ∷ []) }
    ensures room { T.room to.old other ≤ T.room to.new other + 1 }
    ensures others_from { OthersStay owner (S.pocket from.old) (S.pocket from.new) }
    ensures others_to { OthersStay other (T.pocket to.old) (T.pocket to.new) }
{
    let Some(packet) = from.take(owner, key) else {
        unreachable!();
    };
    let Ok(there) = to.put(other, packet) else {
        unreachable!();
    };
    there
}

/// Moves all packets of a delay line from one shelf to another, which must have room for them, and
/// stores the new keys. Does not allocate.
pub fn rehouse_line<S: Shelf, T: Shelf>(
    line: &mut DelayLine<Key>,
    from: &mut S,
    owner: Owner,
    to: &mut T,
    other: Owner,
)
    requires named { AreNamed (S.pocket from.old owner) (map (λ x. x.item) line.old.line.in_flight) }
    requires budget { (T.pocket to.old other).count
        + length (map (λ x. x.item) line.old.line.in_flight) ≤ (T.pocket to.old other).budget }
    requires room { length (map (λ x. x.item) line.old.line.in_flight) ≤ T.room to.old other }
    ensures shown { seen_line (packet_at (T.pocket to.new other).find) line.new.line
        ≡ seen_line (packet_at (S.pocket from.old owner).find) line.old.line }
    ensures moved { Rehouses (S.pocket from.old owner) (S.pocket from.new owner)
        (T.pocket to.old other) (T.pocket to.new other)
        (map (λ x. x.item) line.old.line.in_flight) (map (λ x. x.item) line.new.line.in_flight) }
    ensures same { line.new.spare ≡ line.old.spare }
    ensures room { T.room to.old other
        ≤ T.room to.new other + length (map (λ x. x.item) line.old.line.in_flight) }
    ensures others_from { OthersStay owner (S.pocket from.old) (S.pocket from.new) }
    ensures others_to { OthersStay other (T.pocket to.old) (T.pocket to.new) }
{
    for place in 0..line.in_flight() {
        let Some(key) = line.at(place) else {
            unreachable!();
        };
        let there = rehouse_one(key, from, owner, to, other);
        line.replace(place, there);
    }
}

/// Moves all packets of an instance.
fn rehouse_instance<S: Shelf, T: Shelf>(
    instance: &mut Instance,
    from: &mut S,
    owner: Owner,
    to: &mut T,
    other: Owner,
)
    requires named { AreNamed (S.pocket from.old owner) (keys_in instance.old) }
    requires budget { (T.pocket to.old other).count + length (keys_in instance.old)
        ≤ (T.pocket to.old other).budget }
    requires room { length (keys_in instance.old) ≤ T.room to.old other }
    ensures blank { blank instance.new ≡ blank instance.old }
    ensures moved { Rehouses (S.pocket from.old owner) (S.pocket from.new owner)
        (T.pocket to.old other) (T.pocket to.new other) (keys_in instance.old)
        (keys_in instance.new) }
    ensures room { T.room to.old other ≤ T.room to.new other + length (keys_in instance.old) }
    ensures others_from { OthersStay owner (S.pocket from.old) (S.pocket from.new) }
    ensures others_to { OthersStay other (T.pocket to.old) (T.pocket to.new) }
{
    for place in 0..instance.key_count() {
        let Some(key) = instance.key_at(place) else {
            unreachable!();
        };
        let there = rehouse_one(key, from, owner, to, other);
        instance.replace_key(place, there);
    }
}

/// Moves all packets of some instances, in order.
pub(crate) fn rehouse_all<S: Shelf, T: Shelf>(
    slots: &mut [Slot],
    from: &mut S,
    owner: Owner,
    to: &mut T,
    other: Owner,
)
    requires named { AreNamed (S.pocket from.old owner) (keys_of slots.old) }
    requires budget { (T.pocket to.old other).count + length (keys_of slots.old)
        ≤ (T.pocket to.old other).budget }
    requires room { length (keys_of slots.old) ≤ T.room to.old other }
    ensures blank { map blank_slot slots.new ≡ map blank_slot slots.old }
    ensures moved { Rehouses (S.pocket from.old owner) (S.pocket from.new owner)
        (T.pocket to.old other) (T.pocket to.new other) (keys_of slots.old) (keys_of slots.new) }
    ensures room { T.room to.old other ≤ T.room to.new other + length (keys_of slots.old) }
    ensures others_from { OthersStay owner (S.pocket from.old) (S.pocket from.new) }
    ensures others_to { OthersStay other (T.pocket to.old) (T.pocket to.new) }
{
    for slot in slots.iter_mut() {
        rehouse_instance(&mut slot.instance, from, owner, to, other);
    }
}

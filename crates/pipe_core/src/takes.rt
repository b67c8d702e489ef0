//! The removal of packets from a shelf by their keys.

ghost use Rattle.std.specs.Prelude.{◌≡◌, ◌+◌, ◌≤◌, [], map, length, OnOk, IsOk, vec_len, vec_capacity};
ghost use Rattle.packet_store.specs.Pocket.{OthersStay};
ghost use Rattle.pipe_core.specs.Moves.{AreNamed, Taking};
ghost use Rattle.pipe_core.specs.Keyed.{keys_of};

use crate::Leftovers;
use crate::slot::Slot;
use emu_model::Packet;
use packet_store::{Key, Owner, Shelf};
use queue_disc::Queued;
use std::alloc::AllocError;
use unchecked::unreachable_unchecked;

/// Clears a list, and reserves room for `most` packets in it.
#[inline(always)]
pub(crate) fn clear_for(most: usize, drops: &mut Vec<Packet>) -> Result<(), AllocError>
    ensures items { drops.new.items ≡ [] }
    ensures len { vec_len drops.new ≡ 0 }
    ensures room { OnOk result (most ≤ vec_capacity drops.new) }
    ensures capacity { vec_capacity drops.old ≤ vec_capacity drops.new }
    ensures succeeds { most ≤ vec_capacity drops.old → IsOk result }
{
    drops.clear();
    if most <= drops.capacity() {
        return Ok(());
    }
    drops.reserve(most)
}

/// Moves the dropped packets from the shelf to the end of a list that has room for them.
#[inline(always)]
pub(crate) fn take_dropped<S: Shelf>(
    dropped: &[Queued<Key>],
    shelf: &mut S,
    owner: Owner,
    drops: &mut Vec<Packet>,
)
    requires named { AreNamed (S.pocket shelf.old owner) (map (λ w. w.item) dropped.now) }
    requires room { vec_len drops.old + length dropped.now ≤ vec_capacity drops.old }
    ensures capacity { vec_capacity drops.new ≡ vec_capacity drops.old }
    ensures taken { Taking (S.pocket shelf.old owner) (S.pocket shelf.new owner)
        (map (λ w. w.item) dropped.now) [] drops.old.items drops.new.items }
    ensures others { OthersStay owner (S.pocket shelf.old) (S.pocket shelf.new) }
{
    // Usually nothing was dropped.
    if dropped.is_empty() {
        return;
    }
    take_each(dropped, shelf, owner, drops);
}

// Moves the dropped packets one by one.
fn take_each<S: Shelf>(
    dropped: &[Queued<Key>],
    shelf: &mut S,
    owner: Owner,
    drops: &mut Vec<Packet>,
)
    requires named { AreNamed (S.pocket shelf.old owner) (map (λ w. w.item) dropped.now) }
    requires room { vec_len drops.old + length dropped.now ≤ vec_capacity drops.old }
    ensures capacity { vec_capacity drops.new ≡ vec_capacity drops.old }
    ensures taken { Taking (S.pocket shelf.old owner) (S.pocket shelf.new owner)
        (map (λ w. w.item) dropped.now) [] drops.old.items drops.new.items }
    ensures others { OthersStay owner (S.pocket shelf.old) (S.pocket shelf.new) }
{
    for waiting in dropped {
        let Some(packet) = shelf.take(owner, waiting.item) else {
            unreachable_unchecked!();
        };
        drops.push_reserved(packet);
    }
}

/// Moves the packets of a deleted instance from the shelf to the end of a list that has room for
/// them.
pub(crate) fn take_leftovers<S: Shelf>(
    mut leftovers: Leftovers,
    shelf: &mut S,
    owner: Owner,
    gone: &mut Vec<Packet>,
)
    requires named { AreNamed (S.pocket shelf.old owner) leftovers }
    requires room { vec_len gone.old + length leftovers ≤ vec_capacity gone.old }
    ensures taken { Taking (S.pocket shelf.old owner)
        (S.pocket shelf.new owner) leftovers [] gone.old.items gone.new.items }
    ensures count { vec_len gone.new ≡ vec_len gone.old + length leftovers }
    ensures capacity { vec_capacity gone.new ≡ vec_capacity gone.old }
    ensures others { OthersStay owner (S.pocket shelf.old) (S.pocket shelf.new) }
{
    while let Some(key) = leftovers.next() {
        let Some(packet) = shelf.take(owner, key) else {
            unreachable_unchecked!();
        };
        gone.push_reserved(packet);
    }
}

/// Moves the packets of deleted instances, in order.
pub(crate) fn take_all<S: Shelf>(
    slots: Vec<Slot>,
    shelf: &mut S,
    owner: Owner,
    gone: &mut Vec<Packet>,
)
    requires named { AreNamed (S.pocket shelf.old owner) (keys_of slots.items) }
    requires room { vec_len gone.old + length (keys_of slots.items) ≤ vec_capacity gone.old }
    ensures taken { Taking (S.pocket shelf.old owner) (S.pocket shelf.new owner)
        (keys_of slots.items) [] gone.old.items gone.new.items }
    ensures others { OthersStay owner (S.pocket shelf.old) (S.pocket shelf.new) }
{
    for slot in slots {
        let Slot { id: _, instance } = slot;
        take_leftovers(instance.into_leftovers(), shelf, owner, gone);
    }
}

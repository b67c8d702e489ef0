//! The residents of one worker: experiments on one shared store and on one agenda (event queue).
//! Each can be packed into one owned value and taken in elsewhere. Our choice.
#![tactic(auto)]

mod body;
mod dossier;
mod list_mail;
mod mail;
mod many_turns;
mod parcel;
mod posts;
mod resident;
mod shard;
mod watch;

pub use dossier::Dossier;
pub use list_mail::{ListMail, SLOTS};
pub use mail::Mail;
pub use many_turns::many_turns_are_turns;
pub use parcel::{Parcel, Unopened};
pub use posts::{PostError, Vacant};
pub use shard::{MAX_RESIDENTS, PackError, Polled, Shard, TakeInError, Turned};
pub use watch::{Unwatched, Watch};

//! Sessions: experiments whose commands arrive line by line, while an outside program reacts to
//! their records (our choice).
#![tactic(auto)]

mod answer;
mod fates;
pub mod laws;
mod marks;
mod open;
mod request;
mod run;
mod run_laws;
mod session;

pub use answer::{Answer, cause_word, put_answer, put_comment};
pub use fates::{Stop, Taken};
pub use run::Run;
pub use session::{MAX_LINE, Session};

//! Mailboxes for updates, which threads share. Only parcels of true updates are put in, so only such parcels are taken out.
//!
//! Words: post, mailbox, parcel.
#![tactic(auto)]

mod line;
mod parcel;
mod post;
mod rule;

pub use line::MailboxPort;
pub use parcel::{Parcel, ParcelMoves};
pub use post::{Pass, Post};

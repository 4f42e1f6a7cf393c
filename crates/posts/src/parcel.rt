//! What goes through a mailbox.

use std::collections::LinkedList;
use tile_fact::Update;

/// Updates on their way, and the node that they come from.
#[derive(Debug, Drop)]
pub struct Parcel {
    pub from: u8,
    pub updates: Vec<Update>,
}

/// What was put and taken by one pass, in order. It is used in contracts only: no value of it is made.
pub struct ParcelMoves {
    pub puts: LinkedList<Parcel>,
    pub takes: LinkedList<Parcel>,
}

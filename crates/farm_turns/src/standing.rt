//! The readiness of a key at a node.

/// What is to be done with a key, by what a node holds.
#[derive(Debug, Drop)]
pub enum KeyReadiness<P> {
    /// Nothing: a fact of it is held.
    Known,
    /// Its tile is to wait: something that it needs is not held, or there is no such tile.
    Waiting,
    /// Its tile can be made by this plan.
    Open(P),
}

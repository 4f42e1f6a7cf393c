//! The two forms of fact files.

/// What a fact file has by its magic.
#[derive(Clone, Copy, Debug)]
pub enum FactFileVersion {
    /// `PTF1`: facts.
    OfFacts,
    /// `PTF2`: retired jobs, at least one, and facts.
    OfBoth,
}

//! A fact: a key, and the numbers that it asserts of its tile.

ghost use Rattle.std.specs.Prelude.{◌≡◌, IfOk, IfErr};

use crate::body::Body;
use identity::Key;
use std::marker::Model;

/// The most samples that the body of a fact may have.
pub const MAX_SAMPLES: usize = 1_048_576;

/// The most bins that the body of a fact may have.
pub const MAX_BINS: usize = 4_096;

/// A key, and the numbers that it asserts of its tile; they need not be true. Facts are in the order of key, kind and numbers.
/// None has more numbers than a fact file can hold.
#[derive(Clone, Debug, Drop, PartialEq, Eq, PartialOrd, Ord)]
pub struct Fact {
    key: Key,
    body: Body,
}

impl Model for Fact {
    ghost use Rattle.tile_fact.specs.Keyed.{Keyed};

    ghost Value = { Keyed };

    ghost use Rattle.tile_fact.specs.Bodies.{IsWithin};

    ghost view = { λ fact. record { key = fact.key; body = fact.body } };

    ghost invariant = { λ fact. IsWithin fact.body };

    ghost inverse = { λ keyed. record { key = keyed.key; body = keyed.body } };
}

impl Fact {
    ghost use Rattle.tile_fact.specs.Bodies.{IsWithin};

    /// The fact of this key and this body. Both are handed back if the body has more numbers than a fact may have:
    /// [`MAX_SAMPLES`] of a tile, [`MAX_BINS`] of a partial. It allocates no memory.
    pub fn new(key: Key, body: Body) -> Result<Fact, (Key, Body)>
        ensures made { IfOk result (λ fact. fact ≡ record { key = key; body = body }) }
        ensures within { IfOk result (λ _. IsWithin body) }
        ensures refused { IfErr result (λ back. back ≡ (key, body)) }
        ensures too_long { IfErr result (λ _. ¬ IsWithin body) }
    {
        if body.is_within_fact_limit() {
            Ok(Fact { key, body })
        } else {
            Err((key, body))
        }
    }

    /// The key.
    pub fn key(&self) -> &Key
        ensures { result.now ≡ self.now.key }
    {
        &self.key
    }

    /// The body, which is within its limit.
    pub fn body(&self) -> &Body
        ensures body { result.now ≡ self.now.body }
        ensures within { IsWithin self.now.body }
    {
        &self.body
    }
}

//! Tiles that held facts supply.

ghost use Rattle.held_facts.specs.Making.{is_of_tile};
ghost use Rattle.held_facts.specs.inside.Holding.{TilesRise, is_before_tile};
ghost use Rattle.std.specs.Option.{option_copied};
ghost use Rattle.std.specs.Prelude.{◌≡◌, find, slice_get};

use tile_fact::{Body, Fact};
use tile_run::TileSource;

/// Facts of tiles of one job, in the order of their tiles, each of which is returned when its tile is requested. Look-ups search
/// these facts alone. They share their numbers with the state that holds them.
#[derive(Drop)]
pub(crate) struct HeldTiles {
    pub(crate) facts: Vec<Fact>,
    ghost rising: { TilesRise facts.items },
}

impl TileSource for HeldTiles {
    ghost use Rattle.held_facts.specs.Making.{tiles_in};

    ghost given = { λ held. tiles_in held.facts.items };

    fn borrow_tile(&self, stage: usize, row: u32, col: u32) -> Option<&[i32]> {
        let fact = find_held_tile_fact(&self.facts, stage, row, col)?;
        match fact.body() {
            Body::Tile(samples) => Some(samples.as_slice()),
            Body::Partial(_) => None,
        }
    }
}

// The fact of this tile, if there is one.
fn find_held_tile_fact(facts: &[Fact], stage: usize, row: u32, col: u32) -> Option<&Fact>
    requires { TilesRise facts.now }
    ensures { option_copied result ≡ find (is_of_tile stage row col) facts.now }
{
    let place = facts.partition_point(|fact| is_held_fact_before_tile(fact, stage, row, col));
    let fact = get_held_fact_at_index(facts, place)?;
    if is_held_fact_of_tile(fact, stage, row, col) {
        Some(fact)
    } else {
        None
    }
}

fn get_held_fact_at_index(facts: &[Fact], n: usize) -> Option<&Fact>
    ensures { option_copied result ≡ slice_get facts.now n }
{
    facts.get(n)
}

// Whether the fact is of a tile before that of this stage in this row and this column.
fn is_held_fact_before_tile(fact: &Fact, stage: usize, row: u32, col: u32) -> bool
    ensures { result ≡ is_before_tile stage row col fact.now }
{
    let key = fact.key();
    let own = usize::from(key.stage);
    own < stage || (own == stage && (key.row < row || (key.row == row && key.col < col)))
}

// Whether the fact is of the tile of this stage in this row and this column.
fn is_held_fact_of_tile(fact: &Fact, stage: usize, row: u32, col: u32) -> bool
    ensures { result ≡ is_of_tile stage row col fact.now }
{
    let key = fact.key();
    usize::from(key.stage) == stage && key.row == row && key.col == col
}

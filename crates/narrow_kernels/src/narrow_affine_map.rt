//! A factor, an addend, a division by a power of two and an offset.

ghost use Rattle.std.specs.Prelude.{◌<◌};

/// What is made of a number: its product with a factor, plus an addend, is divided by a power of two and rounded down; an offset
/// is added to that.
#[derive(Clone, Copy, Debug)]
pub struct NarrowAffineMap {
    pub factor: i16,
    pub addend: i16,
    pub bits: u32,
    pub offset: i16,
    ghost few: { bits < 16 },
}

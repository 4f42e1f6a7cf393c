//! The numbers of a row of a picture.

/// The numbers of a row, before they are clamped: of one grey plane, or of a red, a green and a blue one. Narrow lines have numbers of
/// 16 bits.
#[derive(Clone, Copy, Debug)]
pub enum RawRowLines<'a> {
    Grey(&'a [i32]),
    Colour(&'a [i32], &'a [i32], &'a [i32]),
    NarrowGrey(&'a [i16]),
    NarrowColour(&'a [i16], &'a [i16], &'a [i16]),
}

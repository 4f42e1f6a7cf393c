//! Whether the samples of a raw raster are above the greatest one, without decoding it.
ghost use Rattle.std.specs.Prelude.{List, ℕ, ◌≤◌, All};
ghost use Rattle.std.specs.Bool.{OnTrue};
ghost use Rattle.netpbm.specs.Raw.{pairs, decoded};

/// Whether no sample of a raster is above `max`.
pub fn has_bounded_raster_samples(raster: &[u8], max: u16) -> bool
    ensures { OnTrue result (All (λ sample. sample ≤ max) (decoded max raster.now)) }
{
    if is_greatest_possible_raw_sample(max) {
        return true;
    }
    if max < 256 {
        has_bounded_raster_bytes(raster, max)
    } else {
        has_bounded_raster_pairs(raster, max)
    }
}

/// Whether no bytes spell a sample above `max`. If so, no sample needs to be looked at.
pub fn is_greatest_possible_raw_sample(max: u16) -> bool
    ensures { OnTrue result ((bytes : List ℕ) → All (λ byte. byte ≤ 255) bytes
        → All (λ sample. sample ≤ max) (decoded max bytes)) }
{
    if max == 255 {
        return true;
    }
    max == 65535
}

// Whether no byte is above `max`. It always goes to the end, in a loop that is compiled to few steps.
fn has_bounded_raster_bytes(raster: &[u8], max: u16) -> bool
    ensures { OnTrue result (All (λ byte. byte ≤ max) raster.now) }
{
    let mut greatest = 0;
    for byte in raster {
        if *byte > greatest {
            greatest = *byte;
        }
    }
    u16::from(greatest) <= max
}

// Whether no pair of bytes is above `max`. It always goes to the end, in a loop that is compiled to few steps.
fn has_bounded_raster_pairs(raster: &[u8], max: u16) -> bool
    ensures { OnTrue result (All (λ sample. sample ≤ max) (pairs raster.now)) }
{
    let mut greatest = 0;
    for i in 0..raster.len() / 2 {
        let sample = 256 * u16::from(raster[2 * i]) + u16::from(raster[2 * i + 1]);
        if sample > greatest {
            greatest = sample;
        }
    }
    greatest <= max
}

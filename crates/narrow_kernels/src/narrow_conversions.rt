#![tactic(auto)]
//! Rows of 32 bits and samples of planes as rows of 16 bits, and the other way.

ghost use Rattle.std.specs.Prelude.{◌≡◌, ◌<◌, ◌≤◌, ◌+◌, ◌*◌, ◌^◌, ℕ, pos, length, slice_index, FitsSigned};
ghost use Rattle.std.specs.Int.{w16};
ghost use Rattle.plane_samples.specs.Samples.{count_in, sample_in};
ghost use Rattle.row_loops.specs.Rows.{EachPlace, at};

use plane_samples::{PlaneSamples, SpacedBytes, SpacedPairs};

/// Writes the numbers of a line of 16 bits.
pub fn widen_narrow_row(out: &mut [i32], line: &[i16])
    requires { length line.now ≡ length out.old }
    ensures { EachPlace (length out.old) (λ k. at out.new k ≡ at line.now k) }
{
    for k in 0..out.len() {
        out[k] = i32::from(line[k]);
    }
}

/// A number of 32 bits that fits in 16.
#[inline]
pub(crate) fn narrow_number_of_wide(number: i32) -> i16
    requires { FitsSigned w16 number }
    ensures { result ≡ number }
{
    number as i16
}

/// Writes the numbers of a line of 32 bits, which fit in 16.
pub fn narrow_row_of_wide_numbers(out: &mut [i16], line: &[i32])
    requires line { length line.now ≡ length out.old }
    requires fits { EachPlace (length out.old) (λ k. FitsSigned w16 (at line.now k)) }
    ensures { EachPlace (length out.old) (λ k. at out.new k ≡ at line.now k) }
{
    for k in 0..out.len() {
        out[k] = narrow_number_of_wide(line[k]);
    }
}

/// Has a sample at places.
trait NarrowSamples: Copy {
    /// Whether there is one.
    ghost has: { Self → ℕ → Type 0 };
    /// And the sample.
    ghost sample: { Self → ℕ → ℕ };

    /// The sample at a place.
    fn load_narrow_sample(&self, k: usize) -> i16
        requires there { has self.now k }
        requires small { sample self.now k ≤ 32767 }
        ensures { result ≡ pos (sample self.now k) };
}

impl<'a> NarrowSamples for &'a [u16] {
    ghost has = { λ samples k. k < length samples.now };

    ghost sample = { λ samples k. slice_index samples.now k };

    #[inline]
    fn load_narrow_sample(&self, k: usize) -> i16 {
        self[k] as i16
    }
}

// Bytes that are any distance apart.
impl<'a> NarrowSamples for SpacedBytes<'a> {
    ghost has = { λ s k. k < s.count };

    ghost sample = { λ s k. slice_index s.bytes.now (k * s.step) };

    #[inline]
    fn load_narrow_sample(&self, k: usize) -> i16 {
        i16::from(self.bytes[k * self.step])
    }
}

// Pairs of bytes that are any distance apart.
impl<'a> NarrowSamples for SpacedPairs<'a> {
    ghost has = { λ s k. k < s.count };

    ghost sample = { λ s k. 256 * slice_index s.bytes.now (k * s.step)
        + slice_index s.bytes.now (k * s.step + 1) };

    #[inline]
    fn load_narrow_sample(&self, k: usize) -> i16 {
        let place = k * self.step;
        (256 * u16::from(self.bytes[place]) + u16::from(self.bytes[place + 1])) as i16
    }
}

// Bytes at steps of one length. (A length that is known here allows vector code.)
#[derive(Clone, Copy)]
struct StepsOfNarrowBytes<'a, const STEP: usize>(SpacedBytes<'a>);

impl<'a, const STEP: usize> NarrowSamples for StepsOfNarrowBytes<'a, STEP> {
    ghost has = { λ s k. k < s.0.count × s.0.step ≡ STEP };

    ghost sample = { λ s k. slice_index s.0.bytes.now (k * s.0.step) };

    #[inline]
    fn load_narrow_sample(&self, k: usize) -> i16 {
        i16::from(self.0.bytes[k * STEP])
    }
}

// Pairs of bytes at steps of one length.
#[derive(Clone, Copy)]
struct StepsOfNarrowBytePairs<'a, const STEP: usize>(SpacedPairs<'a>);

impl<'a, const STEP: usize> NarrowSamples for StepsOfNarrowBytePairs<'a, STEP> {
    ghost has = { λ s k. k < s.0.count × s.0.step ≡ STEP };

    ghost sample = { λ s k. 256 * slice_index s.0.bytes.now (k * s.0.step)
        + slice_index s.0.bytes.now (k * s.0.step + 1) };

    #[inline]
    fn load_narrow_sample(&self, k: usize) -> i16 {
        let place = k * STEP;
        (256 * u16::from(self.0.bytes[place]) + u16::from(self.0.bytes[place + 1])) as i16
    }
}

// Takes the samples from a place on.
fn copy_samples_to_narrow_row<V: NarrowSamples>(samples: V, place: usize, out: &mut [i16])
    requires few { (j : ℕ) → V.has samples j → j < 2 ^ 64 }
    requires there { EachPlace (length out.old) (λ k. V.has samples (place + k)) }
    requires small { EachPlace (length out.old) (λ k. V.sample samples (place + k) ≤ 32767) }
    ensures { EachPlace (length out.old) (λ k. at out.new k ≡ pos (V.sample samples (place + k))) }
{
    for k in 0..out.len() {
        out[k] = samples.load_narrow_sample(place + k);
    }
}

/// Writes the samples from a place on, which are at most 32,767.
pub fn convert_samples_to_narrow_row(samples: &PlaneSamples<'_>, place: usize, out: &mut [i16])
    requires there { place + length out.old ≤ count_in samples.now }
    requires small { EachPlace (length out.old)
        (λ k. sample_in samples.now (place + k) ≤ 32767) }
    ensures { EachPlace (length out.old)
        (λ k. at out.new k ≡ pos (sample_in samples.now (place + k))) }
{
    match samples {
        PlaneSamples::Words(words) => copy_samples_to_narrow_row(*words, place, out),
        PlaneSamples::Bytes(spaced) => {
            prove!(spaced.count <= usize::MAX);
            match spaced.step {
                1 => copy_samples_to_narrow_row(StepsOfNarrowBytes::<1>(*spaced), place, out),
                3 => copy_samples_to_narrow_row(StepsOfNarrowBytes::<3>(*spaced), place, out),
                _ => copy_samples_to_narrow_row(*spaced, place, out),
            }
        }
        PlaneSamples::Pairs(spaced) => {
            prove!(spaced.count <= usize::MAX);
            match spaced.step {
                2 => copy_samples_to_narrow_row(StepsOfNarrowBytePairs::<2>(*spaced), place, out),
                6 => copy_samples_to_narrow_row(StepsOfNarrowBytePairs::<6>(*spaced), place, out),
                _ => copy_samples_to_narrow_row(*spaced, place, out),
            }
        }
    }
}

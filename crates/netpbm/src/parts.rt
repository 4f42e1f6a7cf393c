//! Parts of the samples of a plane.
ghost use Rattle.std.specs.Prelude.{ℕ, List, IfSome, ◌≡◌, ◌≤◌, ◌-◌, length, take, slice_range};
ghost use Rattle.plane_samples.specs.Samples.{count_in, IsSamples};
ghost use Rattle.plane_samples.specs.declared.samples.PlaneSamples.TheVariants.{Bytes};

use plane_samples::{PlaneSamples, SpacedBytes};

/// A view of the samples from one place up to another: in place if they are words, else copied into the buffer `room`.
pub fn view_or_copy_plane_slice<'a>(
    room: &'a mut [u16],
    samples: &PlaneSamples<'a>,
    start: usize,
    end: usize,
) -> &'a [u16]
    requires order { start ≤ end }
    requires within { end ≤ count_in samples.now }
    requires room { end - start ≤ length room.old }
    ensures { (list : List ℕ) → IsSamples samples.now list
        → result.now ≡ slice_range list start end }
{
    match samples {
        PlaneSamples::Words(words) => &words[start..end],
        PlaneSamples::Bytes(_) | PlaneSamples::Pairs(_) => {
            copy_plane_slice_into_buffer(room, samples, start, end);
            &room[..end - start]
        }
    }
}

// Puts the samples from one place up to another into the front of `out`, one by one.
fn copy_plane_slice_into_buffer(
    out: &mut [u16],
    samples: &PlaneSamples<'_>,
    start: usize,
    end: usize,
)
    requires order { start ≤ end }
    requires within { end ≤ count_in samples.now }
    requires room { end - start ≤ length out.old }
    ensures { (list : List ℕ) → IsSamples samples.now list
        → take (end - start) out.new ≡ slice_range list start end }
{
    for k in 0..end - start {
        out[k] = samples.load_sample(start + k);
    }
}

/// The samples as bytes, if each is a byte and they are contiguous.
pub fn view_contiguous_sample_bytes<'a>(samples: &PlaneSamples<'a>) -> Option<&'a [u8]>
    ensures { IfSome result
        (λ bytes. (list : List ℕ) → IsSamples samples.now list → bytes.now ≡ list) }
{
    match samples {
        PlaneSamples::Bytes(spaced) => view_sample_bytes_at_step_one(spaced),
        PlaneSamples::Words(_) => None,
        PlaneSamples::Pairs(_) => None,
    }
}

fn view_sample_bytes_at_step_one<'a>(spaced: &SpacedBytes<'a>) -> Option<&'a [u8]>
    ensures { IfSome result
        (λ bytes. (list : List ℕ) → IsSamples (Bytes spaced.now) list → bytes.now ≡ list) }
{
    if spaced.step != 1 {
        return None;
    }
    if spaced.bytes.len() < spaced.count {
        return None;
    }
    Some(&spaced.bytes[..spaced.count])
}

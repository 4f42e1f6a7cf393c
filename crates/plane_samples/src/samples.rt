//! The samples of a plane as they lie in memory.
ghost use Rattle.std.specs.Prelude.{ℕ, ◌≡◌, ◌<◌, ◌+◌, ◌*◌, length, slice_index};

/// Samples that are bytes, `step` bytes apart from the first on.
#[derive(Clone, Copy, Debug)]
pub struct SpacedBytes<'a> {
    pub bytes: &'a [u8],
    pub step: usize,
    pub count: usize,
    ghost there: { (k : ℕ) → k < count → k * step < length bytes.now },
}

/// Samples of two bytes each, most significant first, `step` bytes apart.
#[derive(Clone, Copy, Debug)]
pub struct SpacedPairs<'a> {
    pub bytes: &'a [u8],
    pub step: usize,
    pub count: usize,
    ghost there: { (k : ℕ) → k < count → k * step + 1 < length bytes.now },
}

/// The samples of a plane, row by row, as they lie in memory.
#[derive(Clone, Copy, Debug)]
pub enum PlaneSamples<'a> {
    Words(&'a [u16]),
    Bytes(SpacedBytes<'a>),
    Pairs(SpacedPairs<'a>),
}

impl PlaneSamples<'_> {
    ghost use Rattle.std.specs.Prelude.{◌≡◌, ◌<◌};
    ghost use Rattle.plane_samples.specs.Samples.{count_in, sample_in};

    /// The number of samples.
    pub fn count(&self) -> usize
        ensures { result ≡ count_in self.now }
    {
        match self {
            PlaneSamples::Words(words) => words.len(),
            PlaneSamples::Bytes(spaced) => spaced.count,
            PlaneSamples::Pairs(spaced) => spaced.count,
        }
    }

    /// The sample at a place.
    pub fn load_sample(&self, place: usize) -> u16
        requires { place < count_in self.now }
        ensures { result ≡ sample_in self.now place }
    {
        match self {
            PlaneSamples::Words(words) => load_sample_from_u16_words(words, place),
            PlaneSamples::Bytes(spaced) => load_sample_from_spaced_bytes(
                spaced.bytes,
                spaced.step,
                place,
            ),
            PlaneSamples::Pairs(spaced) => load_sample_from_spaced_byte_pairs(
                spaced.bytes,
                spaced.step,
                place,
            ),
        }
    }
}

fn load_sample_from_u16_words(words: &[u16], place: usize) -> u16
    requires { place < length words.now }
    ensures { result ≡ slice_index words.now place }
{
    words[place]
}

fn load_sample_from_spaced_bytes(bytes: &[u8], step: usize, place: usize) -> u16
    requires { place * step < length bytes.now }
    ensures { result ≡ slice_index bytes.now (place * step) }
{
    u16::from(bytes[place * step])
}

fn load_sample_from_spaced_byte_pairs(bytes: &[u8], step: usize, place: usize) -> u16
    requires { place * step + 1 < length bytes.now }
    ensures { result
        ≡ 256 * slice_index bytes.now (place * step) + slice_index bytes.now (place * step + 1) }
{
    let at = place * step;
    256 * u16::from(bytes[at]) + u16::from(bytes[at + 1])
}

#![tactic(auto)]
//! Numbers along a row, in 32 bits or in 16.

ghost use Rattle.std.specs.Prelude.{◌≡◌, ◌<◌, ◌≤◌, ℤ, pos, List, length, slice_index_or};
ghost use Rattle.job.specs.Answers.{sample_of};

/// Has a number at each place of a row.
pub(crate) trait RawRowNumbers: Copy {
    /// The numbers from the first place to the last.
    ghost numbers: { Self → List ℤ };

    /// The sample of the number at a place: the number clamped to 0 and the greatest sample.
    fn clamp_raw_row_number(&self, k: usize, max: u16) -> u16
        requires { k < length (numbers self.now) }
        ensures value { result ≡ sample_of max (slice_index_or (numbers self.now) k (pos 0)) }
        ensures most { result ≤ max };
}

// Numbers are first clamped to 16 bits without a sign, for which vector code has one operation.
impl<'a> RawRowNumbers for &'a [i32] {
    ghost numbers = { λ line. line.now };

    #[inline]
    fn clamp_raw_row_number(&self, k: usize, max: u16) -> u16 {
        (self[k].max(0).min(65535) as u16).min(max)
    }
}

// Numbers are clamped in 16 bits, so that vector code has as many lanes as it can. A bound above 32767 bounds none of them.
impl<'a> RawRowNumbers for &'a [i16] {
    ghost numbers = { λ line. line.now };

    #[inline]
    fn clamp_raw_row_number(&self, k: usize, max: u16) -> u16 {
        self[k].max(0).min(max.min(32767) as i16) as u16
    }
}

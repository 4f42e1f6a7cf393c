#![tactic(auto)]
//! The values of a row of points, in 32 bits, in 16, or as bytes of a plane.

ghost use Rattle.std.specs.Prelude.{◌≡◌, ◌<◌, ℤ, pos, List, length, map};
ghost use Rattle.tile_eval.specs.Rows.{at};

/// Has the value of each point of a row, to be accumulated in bins.
pub(crate) trait BinValues: Copy {
    /// The values from the first point to the last.
    ghost values: { Self → List ℤ };

    /// How many there are.
    fn count_bin_values(&self) -> usize
        ensures { result ≡ length (values self.now) };

    /// The value at a place.
    fn read_bin_value(&self, k: usize) -> i32
        requires { k < length (values self.now) }
        ensures { result ≡ at (values self.now) k };
}

impl<'a> BinValues for &'a [i32] {
    ghost values = { λ line. line.now };

    #[inline]
    fn count_bin_values(&self) -> usize {
        self.len()
    }

    #[inline]
    fn read_bin_value(&self, k: usize) -> i32 {
        self[k]
    }
}

// Bytes are converted where they are accumulated, so that no row of 32-bit numbers is written first.
impl<'a> BinValues for &'a [u8] {
    ghost values = { λ bytes. map pos bytes.now };

    #[inline]
    fn count_bin_values(&self) -> usize {
        self.len()
    }

    #[inline]
    fn read_bin_value(&self, k: usize) -> i32 {
        i32::from(self[k])
    }
}

// What bytes of several rows join to.
impl<'a> BinValues for &'a [u16] {
    ghost values = { λ line. map pos line.now };

    #[inline]
    fn count_bin_values(&self) -> usize {
        self.len()
    }

    #[inline]
    fn read_bin_value(&self, k: usize) -> i32 {
        let joined = self[k];
        i32::from(joined)
    }
}

//! Interleaved red, green and blue samples.
ghost use Rattle.std.specs.Prelude.{◌≡◌, ◌≤◌, ◌*◌, ◌/◌, ◌++◌, [], ◌∷◌, length, take, IfOk, OnOk};
ghost use Rattle.netpbm.specs.Colours.{woven, thirds, separated};
ghost use Rattle.netpbm.specs.Planes.{samples_of};

use std::alloc::{AllocError, Global};

/// The planes of interleaved samples: as many as there are colours, 1 or 3.
pub fn split_into_planes(
    alloc: Global,
    samples: Vec<u16>,
    colours: usize,
) -> Result<Vec<Vec<u16>>, AllocError>
    ensures { IfOk result (λ planes. samples_of planes.items ≡ separated colours samples.items) }
{
    if colours != 1 {
        return split_into_colour_planes(alloc, samples.as_slice());
    }
    let mut planes = Vec::with_capacity(alloc, 1)?;
    planes.push(samples)?;
    Ok(planes)
}

// The planes of interleaved samples of three colours.
fn split_into_colour_planes(alloc: Global, samples: &[u16]) -> Result<Vec<Vec<u16>>, AllocError>
    ensures { IfOk result (λ planes. samples_of planes.items ≡ separated 3 samples.now) }
{
    let all = samples.len() / 3;
    let mut apart = ColourPlanes::with_capacity(alloc, all)?;
    let mut done = 0;
    while done < all {
        let end = all.min(done + PIECE);
        apart.append_interleaved(&samples[3 * done..3 * end])?;
        done = end;
    }
    apart.into_planes(alloc)
}

/// How many pixels are separated at a time: few enough that their samples stay in the cache.
pub const PIECE: usize = 4096;

/// A red, a green and a blue plane that grow.
#[derive(Drop)]
pub struct ColourPlanes {
    red: Vec<u16>,
    green: Vec<u16>,
    blue: Vec<u16>,
}

impl ColourPlanes {
    /// Empty planes with capacity for `area` samples each.
    pub fn with_capacity(alloc: Global, area: usize) -> Result<ColourPlanes, AllocError>
        ensures red { IfOk result (λ apart. apart.red.items ≡ []) }
        ensures green { IfOk result (λ apart. apart.green.items ≡ []) }
        ensures blue { IfOk result (λ apart. apart.blue.items ≡ []) }
    {
        Ok(ColourPlanes {
            red: Vec::with_capacity(alloc, area)?,
            green: Vec::with_capacity(alloc, area)?,
            blue: Vec::with_capacity(alloc, area)?,
        })
    }

    /// Adds interleaved red, green and blue samples to their planes.
    pub fn append_interleaved(&mut self, samples: &[u16]) -> Result<(), AllocError>
        requires { length samples.now ≤ 12288 }
        ensures red { OnOk result
            (self.new.red.items ≡ self.old.red.items ++ thirds 0 samples.now) }
        ensures green { OnOk result
            (self.new.green.items ≡ self.old.green.items ++ thirds 1 samples.now) }
        ensures blue { OnOk result
            (self.new.blue.items ≡ self.old.blue.items ++ thirds 2 samples.now) }
    {
        let mut red = [0u16; PIECE];
        let mut green = [0u16; PIECE];
        let mut blue = [0u16; PIECE];
        split_colour_samples_into_buffers(&mut red, &mut green, &mut blue, samples);
        let count = samples.len() / 3;
        self.red.extend_from_slice(&red[..count])?;
        self.green.extend_from_slice(&green[..count])?;
        self.blue.extend_from_slice(&blue[..count])
    }

    /// The three planes.
    pub fn into_planes(self, alloc: Global) -> Result<Vec<Vec<u16>>, AllocError>
        ensures { IfOk result (λ planes. samples_of planes.items
            ≡ self.red.items ∷ self.green.items ∷ self.blue.items ∷ []) }
    {
        let ColourPlanes { red, green, blue } = self;
        let mut planes = Vec::with_capacity(alloc, 3)?;
        planes.push(red)?;
        planes.push(green)?;
        planes.push(blue)?;
        Ok(planes)
    }
}

// Puts the red, the green and the blue ones of interleaved samples into the fronts of three buffers.
#[tactic(auto, using(crate::proofs::Rasters::gathered))]
fn split_colour_samples_into_buffers(
    red: &mut [u16],
    green: &mut [u16],
    blue: &mut [u16],
    samples: &[u16],
)
    requires red { length samples.now ≤ 3 * length red.old }
    requires green { length samples.now ≤ 3 * length green.old }
    requires blue { length samples.now ≤ 3 * length blue.old }
    ensures red { take (length samples.now / 3) red.new ≡ thirds 0 samples.now }
    ensures green { take (length samples.now / 3) green.new ≡ thirds 1 samples.now }
    ensures blue { take (length samples.now / 3) blue.new ≡ thirds 2 samples.now }
{
    for i in 0..samples.len() / 3 {
        red[i] = samples[3 * i];
        green[i] = samples[3 * i + 1];
        blue[i] = samples[3 * i + 2];
    }
}

/// Puts the samples of three planes, interleaved, into the front of `out`.
#[tactic(auto, using(crate::proofs::Rasters::weaved))]
pub fn write_interleaved_colour_samples(out: &mut [u16], red: &[u16], green: &[u16], blue: &[u16])
    requires green { length green.now ≡ length red.now }
    requires blue { length blue.now ≡ length red.now }
    requires room { 3 * length red.now ≤ length out.old }
    ensures { take (3 * length red.now) out.new ≡ woven red.now green.now blue.now }
{
    for i in 0..red.len() {
        out[3 * i] = red[i];
        out[3 * i + 1] = green[i];
        out[3 * i + 2] = blue[i];
    }
}

/// The same of bytes.
#[tactic(auto, using(crate::proofs::Rasters::weaved))]
pub fn write_interleaved_colour_bytes(out: &mut [u8], red: &[u8], green: &[u8], blue: &[u8])
    requires green { length green.now ≡ length red.now }
    requires blue { length blue.now ≡ length red.now }
    requires room { 3 * length red.now ≤ length out.old }
    ensures { take (3 * length red.now) out.new ≡ woven red.now green.now blue.now }
{
    for pixel in 0..red.len() {
        out[3 * pixel] = red[pixel];
        out[3 * pixel + 1] = green[pixel];
        out[3 * pixel + 2] = blue[pixel];
    }
}

#![tactic(auto)]
//! Numbers of 16 bits that are gathered at the columns that an index takes along a row.

ghost use Rattle.std.specs.Prelude.{◌≡◌, ◌<◌, ◌≤◌, ◌+◌, ◌*◌, ◌/◌, ◌<ℤ◌, ◌+ℤ◌, ℕ, pos, length};
ghost use Rattle.row_kernels.specs.Columns.{column_gap};
ghost use Rattle.row_loops.specs.Rows.{EachPlace, at};

use domains::Index;
use domains::arithmetic::floor_rem;
use row_kernels::RowSpan;

// What an index multiplies by.
#[tactic(auto, using(std::proofs::lemmas::Int::ints))]
fn get_narrow_line_step(index: &Index) -> usize
    ensures number { index.now.mul ≡ pos result }
    ensures most { result ≤ 16 }
{
    index.mul() as usize
}

// Takes the numbers of a line at steps of one length. (A length that is known here allows vector code, as a line does that begins with
// the first number.)
fn gather_steps_of_narrow_line<const STEP: usize>(line: &[i16], out: &mut [i16])
    requires { EachPlace (length out.old) (λ k. k * STEP < length line.now) }
    ensures { EachPlace (length out.old) (λ k. at out.new k ≡ at line.now (k * STEP)) }
{
    for k in 0..out.len() {
        out[k] = line[k * STEP];
    }
}

// Takes the numbers of a line at steps of any length.
fn gather_long_steps_of_narrow_line(line: &[i16], step: usize, out: &mut [i16])
    requires { EachPlace (length out.old) (λ k. k * step < length line.now) }
    ensures { EachPlace (length out.old) (λ k. at out.new k ≡ at line.now (k * step)) }
{
    for k in 0..out.len() {
        out[k] = line[k * step];
    }
}

// Takes the numbers from a place on, at steps of one length.
fn gather_every_nth_of_narrow_line(line: &[i16], from: usize, step: usize, out: &mut [i16])
    requires { EachPlace (length out.old) (λ k. from + k * step < length line.now) }
    ensures { EachPlace (length out.old) (λ k. at out.new k ≡ at line.now (from + k * step)) }
{
    if out.is_empty() {
        return;
    }
    let line = &line[from..];
    match step {
        1 => gather_steps_of_narrow_line::<1>(line, out),
        2 => gather_steps_of_narrow_line::<2>(line, out),
        3 => gather_steps_of_narrow_line::<3>(line, out),
        4 => gather_steps_of_narrow_line::<4>(line, out),
        _ => gather_long_steps_of_narrow_line(line, step, out),
    }
}

// Takes each number from a place on twice; the first of them only once if `left` is 1.
fn gather_each_twice_of_narrow_line(line: &[i16], from: usize, left: usize, out: &mut [i16])
    requires left { left < 2 }
    requires there { EachPlace (length out.old) (λ k. from + (left + k) / 2 < length line.now) }
    ensures { EachPlace (length out.old)
        (λ k. at out.new k ≡ at line.now (from + (left + k) / 2)) }
{
    if out.is_empty() {
        return;
    }
    let last = out.len() - 1;
    out[0] = line[from];
    for k in 0..(out.len() - left) / 2 {
        let number = line[from + left + k];
        out[left + 2 * k] = number;
        out[left + 2 * k + 1] = number;
    }
    out[last] = line[from + (left + last) / 2];
}

// What an index divides by.
#[tactic(auto, using(std::proofs::lemmas::Int::ints))]
fn get_narrow_line_divisor(index: &Index) -> usize
    ensures number { index.now.div ≡ pos result }
    ensures most { result ≤ 16 }
{
    index.div() as usize
}

// What the division of an index leaves at the first of some points. From there it goes on by whole places.
#[tactic(auto, using(std::proofs::lemmas::Int::ints))]
fn compute_narrow_line_rest(col: &Index, points: &RowSpan) -> usize
    ensures below { pos result <ℤ col.now.div }
    ensures goes { (m d k : ℕ) → col.now.mul ≡ pos m → col.now.div ≡ pos d
        → column_gap col.now points.now.col k ≡ (result + k * m) / d }
{
    floor_rem(col.mul() * points.col + col.add(), col.div()) as usize
}

// Takes the numbers from a place on. From each to the next it goes on by a step that is divided, without a division at each.
fn gather_divided_of_narrow_line(
    line: &[i16],
    from: usize,
    left: usize,
    step: usize,
    divisor: usize,
    out: &mut [i16],
)
    requires left { left < divisor }
    requires step { step ≤ 16 }
    requires divisor { divisor ≤ 16 }
    requires there { EachPlace (length out.old)
        (λ k. from + (left + k * step) / divisor < length line.now) }
    ensures { EachPlace (length out.old)
        (λ k. at out.new k ≡ at line.now (from + (left + k * step) / divisor)) }
{
    let (whole, part) = (step / divisor, step % divisor);
    let (mut gap, mut rest) = (0, left);
    for k in 0..out.len() {
        out[k] = line[from + gap];
        gap += whole;
        rest += part;
        if rest >= divisor {
            gap += 1;
            rest -= divisor;
        }
    }
}

/// Writes the numbers of a line from a place on, at the columns that an index takes at the columns of some points.
pub fn gather_narrow_index_columns(
    line: &[i16],
    from: usize,
    col: &Index,
    points: &RowSpan,
    out: &mut [i16],
)
    requires fits { length out.old ≡ points.now.len }
    requires there { EachPlace (length out.old)
        (λ k. from + column_gap col.now points.now.col k < length line.now) }
    ensures { EachPlace (length out.old)
        (λ k. at out.new k ≡ at line.now (from + column_gap col.now points.now.col k)) }
{
    let (step, divisor) = (get_narrow_line_step(col), get_narrow_line_divisor(col));
    if divisor == 1 {
        // the places of the columns lie at steps of one length
        return gather_every_nth_of_narrow_line(line, from, step, out);
    }
    let left = compute_narrow_line_rest(col, points);
    if divisor == 2 && step == 1 {
        gather_each_twice_of_narrow_line(line, from, left, out);
    } else {
        gather_divided_of_narrow_line(line, from, left, step, divisor, out);
    }
}

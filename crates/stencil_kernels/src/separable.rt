#![tactic(auto)]
//! Separable kernels: products of a column and a row of factors.

ghost use Rattle.std.specs.Prelude.{◌≡◌, IfSome, IsTrue};
ghost use Rattle.stencil_kernels.specs.Separable.{IsMultiple, IsSeparable};

use arrayvec::ArrayVec;
use operators::Kernel;

/// A kernel whose factors are products of a factor of the row and one of the column.
#[derive(Debug, Drop)]
pub struct SeparableKernel {
    down: ArrayVec<i32, 15>,
    along: ArrayVec<i32, 15>,
}

impl SeparableKernel {
    /// This kernel as a product, if it is one of whole numbers.
    pub fn from_kernel(kernel: &Kernel) -> Option<SeparableKernel>
        ensures product { IfSome result (λ s. IsSeparable kernel.now s.down.items s.along.items) }
    {
        let along = find_base_row_of_factors(kernel)?;
        let down = find_factors_of_base_in_kernel(kernel, along.as_slice())?;
        Some(SeparableKernel { down, along })
    }

    /// The factors of the rows, from the top.
    pub fn borrow_factor_of_each_row(&self) -> &[i32]
        ensures { result.now ≡ self.now.down.items }
    {
        self.down.as_slice()
    }

    /// The factors of the columns, from the left.
    pub fn borrow_factor_of_each_column(&self) -> &[i32]
        ensures { result.now ≡ self.now.along.items }
    {
        self.along.as_slice()
    }
}

// The greatest number that divides both, and 0 if both are 0.
fn find_greatest_common_factor(first: u32, second: u32) -> u32 {
    let (mut a, mut b) = (first, second);
    while b != 0 {
        (a, b) = (b, a % b);
    }
    a
}

// The greatest number that divides each number of a row, and 0 if all are 0.
fn find_common_factor_of_kernel_row(row: &[i32]) -> u32 {
    let mut divisor = 0;
    for number in row {
        divisor = find_greatest_common_factor(number.unsigned_abs(), divisor);
    }
    divisor
}

// The quotients of a row and a number, if the row is no longer than that of a kernel.
fn list_quotients_of_row_factors(row: &[i32], divisor: i32) -> Option<ArrayVec<i32, 15>> {
    let mut quotients = ArrayVec::new();
    for number in row {
        quotients.try_push(number.checked_div(divisor)?).ok()?;
    }
    Some(quotients)
}

// The first row that is not all 0, without what divides all of it: each row of whole multiples is one of this.
fn find_base_row_of_factors(kernel: &Kernel) -> Option<ArrayVec<i32, 15>> {
    for row in kernel.as_slice() {
        let divisor = find_common_factor_of_kernel_row(row.as_slice());
        if divisor != 0 {
            return list_quotients_of_row_factors(row.as_slice(), i32::try_from(divisor).ok()?);
        }
    }
    None
}

// The factor of the base in the row, by the first place where the base is not 0.
fn find_candidate_factor_of_base_in_row(row: &[i32], base: &[i32]) -> Option<i32> {
    for b in 0..base.len() {
        if base[b] != 0 {
            return row.get(b)?.checked_div(base[b]);
        }
    }
    None
}

// Whether a row is the base times a factor.
fn is_base_times_factor(row: &[i32], times: i32, base: &[i32]) -> bool
    ensures { IsTrue result → IsMultiple row.now times base.now }
{
    if row.len() != base.len() {
        return false;
    }
    for b in 0..base.len() {
        let Some(product) = times.checked_mul(base[b]) else {
            return false;
        };
        if product != row[b] {
            return false;
        }
    }
    true
}

// The factor of the base in each row of the kernel, if all rows are multiples of it.
fn find_factors_of_base_in_kernel(kernel: &Kernel, base: &[i32]) -> Option<ArrayVec<i32, 15>>
    ensures { IfSome result (λ down. IsSeparable kernel.now down.items base.now) }
{
    let mut down = ArrayVec::new();
    for row in kernel.as_slice() {
        let times = find_candidate_factor_of_base_in_row(row.as_slice(), base)?;
        if !is_base_times_factor(row.as_slice(), times, base) {
            return None;
        }
        down.try_push(times).ok()?;
    }
    Some(down)
}

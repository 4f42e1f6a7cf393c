#![tactic(auto)]
//! Functions by cases along a row of points, in 16 bits.

ghost use Rattle.std.specs.Prelude.{◌≡◌, ◌≤◌, ◌<◌, ◌-◌, ◌+ℤ◌, ◌↔◌, ◌⊎◌, ℕ, ℤ, List, pos, length, map, true, false, All, IfSome, IfNone, if◌then◌else◌};
ghost use Rattle.std.specs.Option.{option_map, option_map_or, ForSome};
ghost use Rattle.domains.specs.Area.{HoldsPoint};
ghost use Rattle.job.specs.Boxes.{BoundsHold};
ghost use Rattle.job.specs.Formula.{Test};
ghost use Rattle.job.specs.Reads.{EachRead};
ghost use Rattle.job.specs.Values.{all_passed, formula_value};
ghost use Rattle.job.specs.Views.{test_view};
ghost use Rattle.job.specs.WellFormed.{IsFormula, IsTest};
ghost use Rattle.row_kernels.specs.RowMask.{HoldsWhere};
ghost use Rattle.row_loops.specs.Rows.{EachPlace, at};
ghost use Rattle.tile_eval.specs.Reading.{HasRoom, ReadsWithin};
ghost use Rattle.tile_eval.specs.Cases.{InBox, function_value};
ghost use Rattle.tile_eval.specs.inside.Cases.{IsRoomy};
ghost use Rattle.value_ranges.specs.Narrow.{IsNarrow};
ghost use Rattle.narrow_sums.specs.NarrowFormulas.{NarrowWithin};
ghost use Rattle.narrow_eval.specs.NarrowPrograms.{program_formula, program_case};
ghost use Rattle.narrow_eval.specs.NarrowCases.{IsNarrowCase, AreNarrowCases, IsNarrowComputable};

use crate::narrow_case::{NarrowCase, NarrowFunction};
use crate::narrow_points::NarrowPoints;
use crate::narrow_program::NarrowProgram;
use domains::Area;
use narrow_kernels::{copy_narrow_row_where_mask_holds, fill_narrow_row};
use narrow_sums::NarrowSource;
use row_kernels::{RowMask, RowSpan, find_row_mask};

// The places of a row of points that lie in an area: the first one, and the end.
fn find_narrow_case_interval(area: &Area, points: &RowSpan) -> Option<(usize, usize)>
    requires { 0 < points.now.len }
    ensures some { IfSome result (λ p. (p.0 < p.1) × (p.1 ≤ points.now.len)) }
    ensures inside { IfSome result (λ p. (k : ℕ) → k < points.now.len
        → HoldsPoint area.now points.now.row (points.now.col +ℤ pos k) ↔ ((p.0 ≤ k) × (k < p.1))) }
    ensures none { IfNone result ((k : ℕ) → k < points.now.len
        → ¬ (HoldsPoint area.now points.now.row (points.now.col +ℤ pos k))) }
{
    if !area.rows.holds(points.row) {
        return None;
    }
    let columns = points.columns()?;
    let common = area.cols.meet(&columns)?;
    Some((
        points.column_offset(common.lo()),
        points.column_offset(common.hi()) + 1,
    ))
}

// Whether in each column the tests of the one hold if those of the other do not.
fn are_narrow_case_masks_complementary(first: RowMask, second: RowMask) -> bool
    ensures { result ≡ true → (xs ys : List Test) (r c : ℤ) → HoldsWhere first xs r
        → HoldsWhere second ys r → BoundsHold xs r c → BoundsHold ys r c
        → all_passed xs r c ≡ false → all_passed ys r c ≡ true }
{
    match (first, second) {
        (RowMask::Leaving(2, 0), RowMask::Leaving(2, 1)) => true,
        (RowMask::Leaving(2, 1), RowMask::Leaving(2, 0)) => true,
        _ => false,
    }
}

// The values of a formula along a row of points, which are computed into the first numbers of `temps` if they cannot be borrowed.
fn obtain_narrow_case_line<'a, S: NarrowSource>(
    source: &'a S,
    points: &RowSpan,
    program: &NarrowProgram,
    temps: &'a mut [i16],
) -> &'a [i16]
    requires formula { IsFormula (program_formula program.now) }
    requires narrow { NarrowWithin (S.samples source.now) (program_formula program.now) points.now.row
        points.now.col points.now.len }
    requires reads { ReadsWithin (S.has source.now) (program_formula program.now) points.now.row
        points.now.col points.now.len }
    requires own { points.now.len ≤ length temps.old }
    requires room { HasRoom (program_formula program.now) points.now.len
        (length temps.old - points.now.len) }
    ensures count { length result.now ≡ points.now.len }
    ensures values { EachPlace points.now.len (λ k. at result.now k
        ≡ formula_value (S.samples source.now) (program_formula program.now) points.now.row
        (points.now.col +ℤ pos k)) }
{
    let row = NarrowPoints {
        source,
        points: *points,
    };
    if let NarrowProgram::Line(read) = program {
        return row.borrow_narrow_program_line(read);
    }
    let (own, rest) = temps.split_at_mut(points.len);
    row.run_narrow_program(program, own, rest);
    own
}

impl<S: NarrowSource> NarrowPoints<'_, S> {
    // A case over a row that lies in its box.
    fn overwrite_narrow_case_in_box(&self, case: &NarrowCase, out: &mut [i16], temps: &mut [i16])
        requires some { 0 < length out.old }
        requires fits { length out.old ≡ self.now.points.len }
        requires inside { EachPlace (length out.old) (λ k. InBox (program_case case.now).box
            self.now.points.row (self.now.points.col +ℤ pos k)) }
        requires ready { EachPlace (length out.old) (λ k. IsNarrowCase (S.has self.now.source.now)
            (S.samples self.now.source.now)
            (program_case case.now) self.now.points.row (self.now.points.col +ℤ pos k)) }
        requires roomy { IsRoomy (length out.old) (length temps.old) (program_case case.now) }
        ensures { EachPlace (length out.old) (λ k. at out.new k
            ≡ (if all_passed (program_case case.now).tests self.now.points.row
            (self.now.points.col +ℤ pos k)
            then formula_value (S.samples self.now.source.now) (program_case case.now).formula
            self.now.points.row (self.now.points.col +ℤ pos k) else at out.old k)) }
    {
        match find_row_mask(&case.tests, &self.points) {
            RowMask::Nowhere => {}
            RowMask::Everywhere => self.run_narrow_program(&case.program, out, temps),
            passed => {
                let line = obtain_narrow_case_line(self.source, &self.points, &case.program, temps);
                copy_narrow_row_where_mask_holds(out, line, &case.tests, passed, &self.points);
            }
        }
    }

    // Takes the values of a case, where its tests hold.
    fn overwrite_narrow_case(&self, case: &NarrowCase, out: &mut [i16], temps: &mut [i16])
        requires fits { length out.old ≡ self.now.points.len }
        requires some { 0 < length out.old }
        requires case { EachPlace (length out.old) (λ k. IsNarrowCase (S.has self.now.source.now)
            (S.samples self.now.source.now)
            (program_case case.now) self.now.points.row (self.now.points.col +ℤ pos k))
            × IsRoomy (length out.old) (length temps.old) (program_case case.now) }
        ensures { EachPlace (length out.old) (λ k. at out.new k
            ≡ (if all_passed (program_case case.now).tests self.now.points.row
            (self.now.points.col +ℤ pos k)
            then formula_value (S.samples self.now.source.now) (program_case case.now).formula
            self.now.points.row (self.now.points.col +ℤ pos k) else at out.old k)) }
    {
        let Some(area) = &case.area else {
            return;
        };
        if let Some((from, to)) = find_narrow_case_interval(area, &self.points) {
            let points = self.points.slice_points(from, to);
            let inner = NarrowPoints {
                source: self.source,
                points,
            };
            inner.overwrite_narrow_case_in_box(case, &mut out[from..to], temps);
        }
    }

    // The values where no case holds: 0 if none are specified.
    fn evaluate_narrow_otherwise(
        &self,
        otherwise: &Option<NarrowProgram>,
        out: &mut [i16],
        temps: &mut [i16],
    )
        requires some { 0 < length out.old }
        requires fits { length out.old ≡ self.now.points.len }
        requires other { ForSome (option_map program_formula otherwise.now)
            (λ f. EachPlace (length out.old) (λ k. EachRead (S.has self.now.source.now) f
            self.now.points.row (self.now.points.col +ℤ pos k)
            × IsNarrow (S.samples self.now.source.now) f self.now.points.row
            (self.now.points.col +ℤ pos k))
            × IsFormula f × HasRoom f (length out.old) (length temps.old)) }
        ensures { EachPlace (length out.old) (λ k. at out.new k
            ≡ option_map_or (λ f. formula_value (S.samples self.now.source.now) f
            self.now.points.row (self.now.points.col +ℤ pos k))
            (option_map program_formula otherwise.now) (pos 0)) }
    {
        match otherwise {
            Some(program) => {
                let to = out.len();
                self.run_narrow_program_on_part(program, 0, to, out, temps);
            }
            None => fill_narrow_row(out, 0),
        }
    }

    // The part of a row where the tests of a case hold, if this is known without testing each point: its first place and its end.
    fn find_narrow_case_interval_by_tests(&self, case: &NarrowCase) -> Option<(usize, usize)>
        requires some { 0 < self.now.points.len }
        requires ready { EachPlace self.now.points.len (λ k. IsNarrowCase (S.has self.now.source.now)
            (S.samples self.now.source.now)
            (program_case case.now) self.now.points.row (self.now.points.col +ℤ pos k)) }
        requires tests { All IsTest (program_case case.now).tests }
        ensures most { IfSome result (λ p. (p.0 ≤ p.1) × (p.1 ≤ self.now.points.len)) }
        ensures held { IfSome result (λ p. EachPlace self.now.points.len
            (λ k. (all_passed (program_case case.now).tests self.now.points.row
            (self.now.points.col +ℤ pos k) ≡ true) ↔ ((p.0 ≤ k) × (k < p.1)))) }
    {
        let Some(area) = &case.area else {
            return Some((0, 0));
        };
        let Some((from, to)) = find_narrow_case_interval(area, &self.points) else {
            return Some((0, 0));
        };
        match find_row_mask(&case.tests, &self.points) {
            RowMask::Nowhere => Some((0, 0)),
            RowMask::Everywhere => Some((from, to)),
            _ => None,
        }
    }

    // The part of a row where a case's tests hold unless those of the case before it do, if known without testing each point.
    fn find_narrow_case_interval_where_earlier_fails(
        &self,
        before: &NarrowCase,
        case: &NarrowCase,
    ) -> Option<(usize, usize)>
        requires some { 0 < self.now.points.len }
        requires before { EachPlace self.now.points.len (λ k. IsNarrowCase (S.has self.now.source.now)
            (S.samples self.now.source.now)
            (program_case before.now) self.now.points.row (self.now.points.col +ℤ pos k)) }
        requires ready { EachPlace self.now.points.len (λ k. IsNarrowCase (S.has self.now.source.now)
            (S.samples self.now.source.now)
            (program_case case.now) self.now.points.row (self.now.points.col +ℤ pos k)) }
        requires first { All IsTest (program_case before.now).tests }
        requires tests { All IsTest (program_case case.now).tests }
        ensures most { IfSome result (λ p. (p.0 ≤ p.1) × (p.1 ≤ self.now.points.len)) }
        ensures inside { IfSome result (λ p. EachPlace self.now.points.len (λ k. p.0 ≤ k → k < p.1
            → InBox (program_case case.now).box self.now.points.row (self.now.points.col +ℤ pos k))) }
        ensures held { IfSome result (λ p. EachPlace self.now.points.len
            (λ k. all_passed (program_case before.now).tests self.now.points.row
            (self.now.points.col +ℤ pos k) ≡ false
            → (all_passed (program_case case.now).tests self.now.points.row
            (self.now.points.col +ℤ pos k) ≡ true) ↔ ((p.0 ≤ k) × (k < p.1)))) }
    {
        let (Some(area), Some(box_before)) = (&case.area, &before.area) else {
            return None;
        };
        let (from, to) = find_narrow_case_interval(area, &self.points)?;
        let (first, second) = find_narrow_case_interval(box_before, &self.points)?;
        let passed = find_row_mask(&case.tests, &self.points);
        if first == from
            && second == to
            && are_narrow_case_masks_complementary(
                find_row_mask(&before.tests, &self.points),
                passed,
            )
        {
            Some((from, to))
        } else {
            None
        }
    }

    // The values of a formula at a part of the points.
    fn run_narrow_program_on_part(
        &self,
        program: &NarrowProgram,
        from: usize,
        to: usize,
        out: &mut [i16],
        temps: &mut [i16],
    )
        requires fits { length out.old ≡ self.now.points.len }
        requires order { from ≤ to }
        requires most { to ≤ length out.old }
        requires formula { IsFormula (program_formula program.now) }
        requires narrow { EachPlace (length out.old) (λ k. from ≤ k → k < to
            → IsNarrow (S.samples self.now.source.now) (program_formula program.now)
            self.now.points.row (self.now.points.col +ℤ pos k)) }
        requires reads { EachPlace (length out.old) (λ k. from ≤ k → k < to
            → EachRead (S.has self.now.source.now) (program_formula program.now)
            self.now.points.row (self.now.points.col +ℤ pos k)) }
        requires room { HasRoom (program_formula program.now) (length out.old) (length temps.old) }
        ensures inside { EachPlace (length out.old) (λ k. from ≤ k → k < to → at out.new k
            ≡ formula_value (S.samples self.now.source.now) (program_formula program.now)
            self.now.points.row (self.now.points.col +ℤ pos k)) }
        ensures outside { EachPlace (length out.old) (λ k. (k < from) ⊎ (to ≤ k)
            → at out.new k ≡ at out.old k) }
    {
        if from < to {
            let points = self.points.slice_points(from, to);
            let inner = NarrowPoints {
                source: self.source,
                points,
            };
            inner.run_narrow_program(program, &mut out[from..to], temps);
        }
    }

    // The values of a function at a part of the points.
    #[cycle(evaluate_narrow_cases)]
    fn evaluate_narrow_cases_on_part(
        &self,
        cases: &[NarrowCase],
        otherwise: &Option<NarrowProgram>,
        from: usize,
        to: usize,
        out: &mut [i16],
        temps: &mut [i16],
    )
        requires fits { length out.old ≡ self.now.points.len }
        requires order { from ≤ to }
        requires most { to ≤ length out.old }
        requires ready { AreNarrowCases (S.has self.now.source.now) (S.samples self.now.source.now) self.now.points.row
            self.now.points.col (length out.old) (length temps.old) cases.now otherwise.now }
        ensures inside { EachPlace (length out.old) (λ k. from ≤ k → k < to → at out.new k
            ≡ function_value (S.samples self.now.source.now) (map program_case cases.now)
            (option_map program_formula otherwise.now) self.now.points.row
            (self.now.points.col +ℤ pos k)) }
        ensures outside { EachPlace (length out.old) (λ k. (k < from) ⊎ (to ≤ k)
            → at out.new k ≡ at out.old k) }
    {
        if from < to {
            let points = self.points.slice_points(from, to);
            let inner = NarrowPoints {
                source: self.source,
                points,
            };
            inner.evaluate_narrow_cases(cases, otherwise, &mut out[from..to], temps);
        }
    }

    // The values of a function at points where not all tests of the case before hold.
    #[cycle(evaluate_narrow_cases)]
    fn evaluate_narrow_cases_where_earlier_fails(
        &self,
        before: &NarrowCase,
        cases: &[NarrowCase],
        otherwise: &Option<NarrowProgram>,
        out: &mut [i16],
        temps: &mut [i16],
    )
        requires some { 0 < length out.old }
        requires fits { length out.old ≡ self.now.points.len }
        requires before { EachPlace (length out.old) (λ k. IsNarrowCase (S.has self.now.source.now)
            (S.samples self.now.source.now)
            (program_case before.now) self.now.points.row (self.now.points.col +ℤ pos k)) }
        requires tests { All IsTest (program_case before.now).tests }
        requires ready { AreNarrowCases (S.has self.now.source.now) (S.samples self.now.source.now) self.now.points.row
            self.now.points.col (length out.old) (length temps.old) cases.now otherwise.now }
        ensures { EachPlace (length out.old) (λ k. all_passed (program_case before.now).tests
            self.now.points.row (self.now.points.col +ℤ pos k) ≡ false → at out.new k
            ≡ function_value (S.samples self.now.source.now) (map program_case cases.now)
            (option_map program_formula otherwise.now) self.now.points.row
            (self.now.points.col +ℤ pos k)) }
    {
        if let [case, rest @ ..] = cases {
            if let Some((from, to)) = self.find_narrow_case_interval_where_earlier_fails(
                before, case,
            ) {
                self.evaluate_narrow_cases_on_part(rest, otherwise, 0, from, out, temps);
                self.evaluate_narrow_cases_on_part(rest, otherwise, to, out.len(), out, temps);
                return self.run_narrow_program_on_part(&case.program, from, to, out, temps);
            }
        }
        self.evaluate_narrow_cases(cases, otherwise, out, temps);
    }

    // The values of a function. If a case holds on one interval of a row, later cases are evaluated only outside that interval.
    #[cycle(evaluate_narrow_cases)]
    fn evaluate_narrow_cases(
        &self,
        cases: &[NarrowCase],
        otherwise: &Option<NarrowProgram>,
        out: &mut [i16],
        temps: &mut [i16],
    )
        requires some { 0 < length out.old }
        requires fits { length out.old ≡ self.now.points.len }
        requires ready { AreNarrowCases (S.has self.now.source.now) (S.samples self.now.source.now) self.now.points.row
            self.now.points.col (length out.old) (length temps.old) cases.now otherwise.now }
        ensures { EachPlace (length out.old) (λ k. at out.new k
            ≡ function_value (S.samples self.now.source.now) (map program_case cases.now)
            (option_map program_formula otherwise.now) self.now.points.row
            (self.now.points.col +ℤ pos k)) }
    {
        let [case, behind @ ..] = cases else {
            return self.evaluate_narrow_otherwise(otherwise, out, temps);
        };
        match self.find_narrow_case_interval_by_tests(case) {
            Some((from, to)) => {
                self.evaluate_narrow_cases_on_part(behind, otherwise, 0, from, out, temps);
                self.evaluate_narrow_cases_on_part(behind, otherwise, to, out.len(), out, temps);
                self.run_narrow_program_on_part(&case.program, from, to, out, temps);
            }
            None => {
                self.evaluate_narrow_cases_where_earlier_fails(case, behind, otherwise, out, temps);
                self.overwrite_narrow_case(case, out, temps);
            }
        }
    }
}

/// Writes the values of a function at a row of points, where each number that is computed fits in 16 bits. The contents of
/// `temps` have no meaning.
pub fn evaluate_narrow_function<S: NarrowSource>(
    source: &S,
    function: &NarrowFunction,
    points: &RowSpan,
    out: &mut [i16],
    temps: &mut [i16],
)
    requires some { 0 < length out.old }
    requires fits { length out.old ≡ points.now.len }
    requires function { IsNarrowComputable (S.has source.now) (S.samples source.now) points.now.row
        points.now.col (length out.old) (length temps.old)
        (map program_case function.now.cases.items)
        (option_map program_formula function.now.otherwise) }
    ensures { EachPlace (length out.old) (λ k. at out.new k
        ≡ function_value (S.samples source.now) (map program_case function.now.cases.items)
        (option_map program_formula function.now.otherwise) points.now.row
        (points.now.col +ℤ pos k)) }
{
    let row = NarrowPoints {
        source,
        points: *points,
    };
    row.evaluate_narrow_cases(&function.cases, &function.otherwise, out, temps);
}

#![tactic(auto)]
//! Stages at the values of the parameters.

ghost use Rattle.std.specs.Prelude.{◌≡◌, [], ◌∷◌, ◌++◌, Some, None, IfOk, if◌then◌else◌, map};
ghost use Rattle.std.specs.List.{flat_map};
ghost use Rattle.std.specs.Option.{option_map};
ghost use Rattle.job.specs.Reads.{reads_in, other_formula};
ghost use Rattle.job.specs.ReadViews.{read_view, same_reads-prop};
ghost use Rattle.job.specs.FormulaViews.{formula_view};

use crate::formula::Formula;
use crate::job::StageKind;
use crate::reads::{
    Read, collect_formula_reads, collect_otherwise_formula_reads, collect_reads_of_two_formulas,
    list_reads_of_function_formulas,
};
use domains::{Area, Grid, Span, TileSides};
use operators::{PointTest, ReductionOp};
use pipe_tokens::Name;
use std::alloc::{AllocError, Global};

/// A formula where all tests hold, with what it reads.
#[derive(Debug, Drop)]
pub struct JobCase {
    area: Option<Area>,
    tests: Vec<PointTest>,
    formula: Formula,
    reads: Vec<Read>,
    ghost found: { map read_view reads.items ≡ reads_in (formula_view formula) } by { same_reads-prop _ _ },
}

/// A function: the first case whose tests hold at a point gives its value there, else `otherwise`, else it is 0.
#[derive(Debug, Drop)]
pub struct Function {
    cases: Vec<JobCase>,
    otherwise: Option<Formula>,
    otherwise_reads: Vec<Read>,
    all_reads: Vec<Read>,
    ghost elsewhere: { map read_view otherwise_reads.items
        ≡ flat_map reads_in (other_formula (option_map formula_view otherwise)) } by { same_reads-prop _ _ },
    ghost found: { map read_view all_reads.items
        ≡ flat_map reads_in (map (λ p. formula_view p.formula) cases.items
        ++ other_formula (option_map formula_view otherwise)) } by { same_reads-prop _ _ },
}

/// An accumulator: how it joins the numbers of a bin, its bins, and of each point the number and the bin.
#[derive(Debug, Drop)]
pub struct Accumulator {
    fold: ReductionOp,
    bins: Span,
    value: Formula,
    bin: Formula,
    point_reads: Vec<Read>,
    ghost found: { map read_view point_reads.items
        ≡ flat_map reads_in (formula_view value ∷ formula_view bin ∷ []) } by { same_reads-prop _ _ },
}

/// What a stage is at each point.
#[derive(Debug, Drop)]
pub enum Body {
    /// A plane of the picture, by its number.
    Plane(usize),
    Function(Function),
    Accumulator(Accumulator),
}

/// A stage. The domain of an accumulator is the area that it reduces.
#[derive(Debug, Drop)]
pub struct Stage {
    name: Name,
    rank: usize,
    domain: Area,
    body: Body,
}

impl Stage {
    ghost use Rattle.job.specs.Answers.{has_tiles};
    ghost use Rattle.job.specs.Readers.{kind_of, fold_of, bins_of};
    ghost use Rattle.job.specs.Views.{stage_view};

    /// The stage of this name, rank and domain, with what it is at each point.
    pub fn new(name: Name, rank: usize, domain: Area, body: Body) -> Self
        ensures { result ≡ record { name = name; rank = rank; domain = domain; body = body } }
    {
        Stage {
            name,
            rank,
            domain,
            body,
        }
    }

    /// The name.
    pub fn name(&self) -> &Name
        ensures { result.now ≡ self.now.name }
    {
        &self.name
    }

    /// The rank: 0 of a plane, else one more than the greatest rank that the stage reads, or 1.
    pub fn rank(&self) -> usize
        ensures { result ≡ self.now.rank }
    {
        self.rank
    }

    /// The domain; of an accumulator the area that it reduces.
    pub fn domain(&self) -> &Area
        ensures { result.now ≡ self.now.domain }
    {
        &self.domain
    }

    /// What the stage is at each point.
    pub fn body(&self) -> &Body
        ensures { result.now ≡ self.now.body }
    {
        &self.body
    }

    /// What the stage is.
    pub fn kind(&self) -> StageKind
        ensures { result ≡ kind_of (stage_view self.now) }
    {
        match self.body {
            Body::Plane(_) => StageKind::Plane,
            Body::Function(_) => StageKind::Function,
            Body::Accumulator(_) => StageKind::Accumulator,
        }
    }

    /// How an accumulator joins the numbers of a bin; none of other stages.
    pub fn op(&self) -> Option<ReductionOp>
        ensures { result ≡ fold_of (stage_view self.now).body }
    {
        match &self.body {
            Body::Plane(_) | Body::Function(_) => None,
            Body::Accumulator(accumulator) => Some(accumulator.fold),
        }
    }

    /// The bins of an accumulator; none of other stages.
    pub fn bins(&self) -> Option<Span>
        ensures { result ≡ bins_of (stage_view self.now).body }
    {
        match &self.body {
            Body::Plane(_) | Body::Function(_) => None,
            Body::Accumulator(accumulator) => Some(accumulator.bins),
        }
    }

    /// The tiles of these sides of a function or accumulator.
    pub(crate) fn grid(&self, sides: TileSides) -> Option<Grid>
        ensures { result
            ≡ (if has_tiles (stage_view self.now).body
            then Some (record { area = self.now.domain; sides = sides }) else None) }
    {
        match self.body {
            Body::Plane(_) => None,
            Body::Function(_) | Body::Accumulator(_) => Some(Grid::new(self.domain, sides)),
        }
    }
}

impl JobCase {
    /// The case of a formula, in this area, where these tests hold. What it reads is found once, and kept.
    ///
    /// # Errors
    ///
    /// Fails only where memory is refused.
    pub fn new(
        alloc: Global,
        area: Option<Area>,
        tests: Vec<PointTest>,
        formula: Formula,
    ) -> Result<Self, AllocError>
        ensures area { IfOk result (λ p. p.area ≡ area) }
        ensures tests { IfOk result (λ p. p.tests ≡ tests) }
        ensures formula { IfOk result (λ p. p.formula ≡ formula) }
    {
        let reads = collect_formula_reads(alloc, &formula)?;
        Ok(JobCase {
            area,
            tests,
            formula,
            reads,
        })
    }

    /// The points of the domain at which the tests of bounds hold, if there are any.
    pub fn area(&self) -> &Option<Area>
        ensures { result.now ≡ self.now.area }
    {
        &self.area
    }

    /// The tests, in the order of the text.
    pub fn tests(&self) -> &[PointTest]
        ensures { result.now ≡ self.now.tests.items }
    {
        &self.tests
    }

    /// The formula where all tests hold.
    pub fn formula(&self) -> &Formula
        ensures { result.now ≡ self.now.formula }
    {
        &self.formula
    }

    /// What the formula reads, in the order of the text.
    pub fn reads(&self) -> &[Read]
        ensures { map read_view result.now ≡ reads_in (formula_view self.now.formula) }
    {
        &self.reads
    }
}

impl Function {
    ghost use Rattle.job.specs.CaseViews.{case_view};
    ghost use Rattle.job.specs.Pipeline.{function};
    ghost use Rattle.job.specs.Reads.{reads_of};

    /// The function of these cases, with `otherwise` elsewhere. What it reads is found once, and kept.
    ///
    /// # Errors
    ///
    /// Fails only where memory is refused.
    pub fn new(
        alloc: Global,
        cases: Vec<JobCase>,
        otherwise: Option<Formula>,
    ) -> Result<Self, AllocError>
        ensures cases { IfOk result (λ f. f.cases ≡ cases) }
        ensures otherwise { IfOk result (λ f. f.otherwise ≡ otherwise) }
    {
        let otherwise_reads = collect_otherwise_formula_reads(alloc, &otherwise)?;
        let all_reads = list_reads_of_function_formulas(alloc, &cases, &otherwise)?;
        Ok(Function {
            cases,
            otherwise,
            otherwise_reads,
            all_reads,
        })
    }

    /// The cases, in the order of the text.
    pub fn cases(&self) -> &[JobCase]
        ensures { result.now ≡ self.now.cases.items }
    {
        &self.cases
    }

    /// The formula where no case holds.
    pub fn otherwise(&self) -> &Option<Formula>
        ensures { result.now ≡ self.now.otherwise }
    {
        &self.otherwise
    }

    /// What is read where no case holds, in the order of the text.
    pub fn otherwise_reads(&self) -> &[Read]
        ensures { map read_view result.now
            ≡ flat_map reads_in (other_formula (option_map formula_view self.now.otherwise)) }
    {
        &self.otherwise_reads
    }

    /// What all cases read, and then what is read where none holds, in the order of the text.
    #[tactic(auto, using(crate::proofs::CaseFormulas::formulas_of_cases))]
    pub fn reads(&self) -> &[Read]
        ensures { map read_view result.now
            ≡ reads_of (function (map case_view self.now.cases.items)
            (option_map formula_view self.now.otherwise)) }
    {
        &self.all_reads
    }
}

impl Accumulator {
    /// The accumulator that joins by `fold` over these bins, with the number and the bin of each point. What it reads is found
    /// once, and kept.
    ///
    /// # Errors
    ///
    /// Fails only where memory is refused.
    pub fn new(
        alloc: Global,
        fold: ReductionOp,
        bins: Span,
        value: Formula,
        bin: Formula,
    ) -> Result<Self, AllocError>
        ensures fold { IfOk result (λ a. a.fold ≡ fold) }
        ensures bins { IfOk result (λ a. a.bins ≡ bins) }
        ensures value { IfOk result (λ a. a.value ≡ value) }
        ensures bin { IfOk result (λ a. a.bin ≡ bin) }
    {
        let point_reads = collect_reads_of_two_formulas(alloc, &value, &bin)?;
        Ok(Accumulator {
            fold,
            bins,
            value,
            bin,
            point_reads,
        })
    }

    /// How the numbers of a bin are joined.
    pub fn fold(&self) -> ReductionOp
        ensures { result ≡ self.now.fold }
    {
        self.fold
    }

    /// The bins.
    pub fn bins(&self) -> &Span
        ensures { result.now ≡ self.now.bins }
    {
        &self.bins
    }

    /// The number that a point adds to its bin.
    pub fn value(&self) -> &Formula
        ensures { result.now ≡ self.now.value }
    {
        &self.value
    }

    /// The bin of a point.
    pub fn bin(&self) -> &Formula
        ensures { result.now ≡ self.now.bin }
    {
        &self.bin
    }

    /// What the number and then the bin of a point read, in the order of the text.
    pub fn reads(&self) -> &[Read]
        ensures { map read_view result.now
            ≡ flat_map reads_in (formula_view self.now.value ∷ formula_view self.now.bin ∷ []) }
    {
        &self.point_reads
    }
}

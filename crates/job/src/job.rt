#![tactic(auto)]
//! Programs that are bound to pictures.

ghost use Rattle.std.specs.Prelude.{◌≡◌, ◌↔◌, map, slice_get, IsSome, IfSome, IfOk, IsTrue};
ghost use Rattle.std.specs.Option.{option_map, ForSome};
ghost use Rattle.sha2.specs.Sha256.{sha256};
ghost use Rattle.job.specs.Identity.{input_bytes, input_id, HasTileAt};
ghost use Rattle.job.specs.Readers.{kind_of, grid_at, stage_fold, stage_bins};
ghost use Rattle.job.specs.WellFormed.{IsJob};
ghost use Rattle.job.specs.WellFormedOnce.{IsJob-prop};
ghost use Rattle.job.specs.OtherStages.{with_stages};
ghost use Rattle.job.specs.Views.{stage_view, output_view, parameter_view, pipeline_of};

use crate::bound_pipeline::BoundPipeline;
use crate::outputs::{Output, Parameter};
use crate::stage::Stage;
use crate::{hashing, sameness};
use domains::{Area, Grid, Span, TileSides};
use identity::{InputId, Key, ProgramId};
use netpbm::Picture;
use operators::ReductionOp;
use pipe_tokens::Name;
use std::alloc::{AllocError, Global};
use tables::Table;

/// A program at the values of its parameters, the picture that it works on, and the sides of its tiles. It is well-formed, as
/// `new` requires.
#[derive(Debug, Drop)]
pub struct Job {
    parts: BoundPipeline,
    text: Vec<u8>,
    program: ProgramId,
    input: Option<InputId>,
    ghost well: { IsJob (pipeline_of parts) } by { IsJob-prop (pipeline_of parts) },
    ghost named: { program ≡ sha256 text.items },
    ghost hashed: { ForSome input (λ id. id ≡ input_id (pipeline_of parts)) },
}

/// What a stage is.
#[derive(Clone, Copy, Debug, PartialEq, Eq)]
pub enum StageKind {
    /// A plane of the picture.
    Plane,
    Function,
    Accumulator,
}

impl Job {
    ghost use Rattle.job.specs.Kept.{pipeline_in, program_text_in, program_id_in};

    /// The job of these parts, whose program has this canonical text. The text is hashed, and the picture is not.
    pub fn new(parts: BoundPipeline, text: Vec<u8>) -> Job
        requires { IsJob (pipeline_of parts) }
        ensures pipeline { pipeline_in result ≡ pipeline_of parts }
        ensures text { program_text_in result ≡ text.items }
        ensures program { program_id_in result ≡ sha256 text.items }
    {
        let program = hashing::hash_job_program(&text);
        Job {
            parts,
            text,
            program,
            input: None,
        }
    }

    /// The same job with these stages in place of its own, if they make one. Its text and its identities are as they were.
    pub fn with_stages(self, stages: Vec<Stage>) -> Job
        requires { IsJob (with_stages (map stage_view stages.items) (pipeline_in self)) }
        ensures pipeline { pipeline_in result
            ≡ with_stages (map stage_view stages.items) (pipeline_in self) }
        ensures text { program_text_in result ≡ program_text_in self }
        ensures program { program_id_in result ≡ program_id_in self }
    {
        let Job {
            parts,
            text,
            program,
            input,
        } = self;
        Job {
            parts: BoundPipeline { stages, ..parts },
            text,
            program,
            input,
        }
    }

    /// The stages, in the order in which the text declares their names. A stage's number is its place here.
    pub fn stages(&self) -> &[Stage]
        ensures { map stage_view result.now ≡ (pipeline_in self.now).stages }
    {
        &self.parts.stages
    }

    /// The stage of this number.
    pub fn stage(&self, number: usize) -> Option<&Stage>
        ensures { option_map (λ s. stage_view s.now) result
            ≡ slice_get (pipeline_in self.now).stages number }
    {
        self.parts.stages.as_slice().get(number)
    }

    /// The output, if the program has one.
    pub fn output(&self) -> &Option<Output>
        ensures { option_map output_view result.now ≡ (pipeline_in self.now).output }
    {
        &self.parts.output
    }

    /// The parameters with their values, in the order of the text.
    pub fn params(&self) -> &[Parameter]
        ensures { map parameter_view result.now ≡ (pipeline_in self.now).params }
    {
        &self.parts.params
    }

    /// The supplied tables, in the order of the text.
    pub fn tables(&self) -> &[Table]
        ensures { result.now ≡ (pipeline_in self.now).tables }
    {
        &self.parts.tables
    }

    /// The table of this number, as it was supplied.
    pub fn table(&self, index: usize) -> Option<&Table>
        ensures { option_map (λ t. t.now) result ≡ slice_get (pipeline_in self.now).tables index }
    {
        self.parts.tables.as_slice().get(index)
    }

    /// The picture.
    pub fn picture(&self) -> &Picture
        ensures { result.now ≡ (pipeline_in self.now).picture }
    {
        &self.parts.picture
    }

    /// The sides of the tiles.
    pub fn sides(&self) -> TileSides
        ensures { result ≡ (pipeline_in self.now).sides }
    {
        self.parts.sides
    }

    /// What the stage of this number is.
    pub fn kind(&self, number: usize) -> Option<StageKind>
        ensures { result ≡ option_map kind_of (slice_get (pipeline_in self.now).stages number) }
    {
        Some(self.stage(number)?.kind())
    }

    /// The rank of the stage of this number.
    pub fn rank(&self, number: usize) -> Option<usize>
        ensures { result
            ≡ option_map (λ s. s.rank) (slice_get (pipeline_in self.now).stages number) }
    {
        Some(self.stage(number)?.rank())
    }

    /// The domain of the stage of this number; of an accumulator the area that it reduces.
    pub fn domain(&self, number: usize) -> Option<Area>
        ensures { result
            ≡ option_map (λ s. s.domain) (slice_get (pipeline_in self.now).stages number) }
    {
        Some(*self.stage(number)?.domain())
    }

    /// The name of the stage of this number.
    pub fn name(&self, number: usize) -> Option<Name>
        ensures { result
            ≡ option_map (λ s. s.name) (slice_get (pipeline_in self.now).stages number) }
    {
        Some(*self.stage(number)?.name())
    }

    /// How the accumulator of this number joins the numbers of a bin.
    pub fn op(&self, number: usize) -> Option<ReductionOp>
        ensures { result ≡ stage_fold (slice_get (pipeline_in self.now).stages number) }
    {
        self.stage(number)?.op()
    }

    /// The bins of the accumulator of this number.
    pub fn bins(&self, number: usize) -> Option<Span>
        ensures { result ≡ stage_bins (slice_get (pipeline_in self.now).stages number) }
    {
        self.stage(number)?.bins()
    }

    /// The tiles of the function or accumulator of this number.
    pub fn grid(&self, number: usize) -> Option<Grid>
        ensures { result ≡ grid_at (pipeline_in self.now) number }
    {
        self.stage(number)?.grid(self.parts.sides)
    }
    /// The canonical text of the program.
    pub fn program_text(&self) -> &[u8]
        ensures { result.now ≡ program_text_in self.now }
    {
        &self.text
    }

    /// The identity of the program: the digest of its canonical text. It is always kept.
    pub fn program_id(&self) -> ProgramId
        ensures { result ≡ program_id_in self.now }
    {
        self.program
    }

    /// The identity of the program's input: of the sides of the tiles, the parameters, the tables and the picture. If it is not
    /// kept, each call hashes all samples of the picture. No memory is taken.
    pub fn input_id(&self) -> InputId
        ensures { result ≡ input_id (pipeline_in self.now) }
    {
        match self.input {
            Some(id) => id,
            None => hashing::hash_job_input(&self.parts),
        }
    }

    /// Hashes the program's input, and keeps this identity: from then on `input_id` and `key` hash nothing.
    pub fn cache_input_id(&mut self)
        ensures pipeline { pipeline_in self.new ≡ pipeline_in self.old }
        ensures text { program_text_in self.new ≡ program_text_in self.old }
        ensures program { program_id_in self.new ≡ program_id_in self.old }
    {
        self.input = Some(self.input_id());
    }

    /// The bytes whose digest is `input_id`.
    ///
    /// # Errors
    ///
    /// Fails only where memory is refused.
    pub fn input_bytes(&self, alloc: Global) -> Result<Vec<u8>, AllocError>
        ensures { IfOk result (λ bytes. bytes.items ≡ input_bytes (pipeline_in self.now)) }
    {
        hashing::encode_input_bytes(alloc, &self.parts)
    }

    /// Whether the same bytes are hashed of both jobs: the canonical texts of their programs, and their `input_bytes`. If so, all
    /// identities are equal. No picture is copied, and no memory is taken.
    pub fn has_same_program_and_input(&self, other: &Job) -> bool
        ensures { IsTrue result
            ↔ (program_text_in self.now ≡ program_text_in other.now)
            × (input_bytes (pipeline_in self.now) ≡ input_bytes (pipeline_in other.now)) }
    {
        if self.text.as_slice() != other.text.as_slice() {
            return false;
        }
        sameness::has_same_input_bytes(&self.parts, &other.parts)
    }

    /// The key of the tile in this row and column of the stage's grid; none if there is no such tile. It has the identity of the
    /// program's input, at the cost of `input_id`.
    pub fn key(&self, stage: u16, row: u32, col: u32) -> Option<Key>
        ensures there { IsSome result ↔ HasTileAt (pipeline_in self.now) stage row col }
        ensures key { IfSome result (λ k. k
            ≡ record {
              program =
                  program_id_in self.now;
              input =
                  input_id (pipeline_in self.now);
              stage = stage;
              row = row;
              col = col;
            }) }
    {
        let grid = self.grid(usize::from(stage))?;
        grid.tile(row, col)?;
        Some(Key {
            program: self.program,
            input: self.input_id(),
            stage,
            row,
            col,
        })
    }
}

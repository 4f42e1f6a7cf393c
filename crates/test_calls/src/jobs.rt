//! Programs that are bound to pictures, their schedules, and facts of their tiles.

ghost use Rattle.std.specs.Prelude.{◌≡◌, ◌≤◌, length, IfOk};
ghost use Rattle.grouping.specs.Inlining.{IsScheduleOf};
ghost use Rattle.job.specs.Kept.{pipeline_in};
ghost use Rattle.job.specs.WellFormed.{IsJob};

use catalog::{Catalog, compute_catalog_job_ids};
use domains::TileSides;
use grouping::Schedule;
use identity::Key;
use job::Job;
use netpbm::{Picture, read};
use pipe_bounds::Params;
use pipe_checks::{Checked, check};
use pipe_lang::parse;
use std::alloc::Global;
use std::test::Fail;

/// A program that copies a grey picture.
pub const COPY: &str =
    "param R; param C; image I(R,C); func f(x in [0..R-1], y in [0..C-1]) { else : I(x,y); } output f max 255;";

/// Two stencils of three by three in a chain.
pub const CHAIN: &str = "image I(6,6);
func a(x in [1..4], y in [1..4]) { else : stencil(I, 1, [[1,1,1],[1,1,1],[1,1,1]]); }
func b(x in [2..3], y in [2..3]) { else : stencil(a, 1, [[1,1,1],[1,1,1],[1,1,1]]); }
output b max 65535;";

/// How many samples leave each remainder by 4.
pub const REMAINDERS: &str =
    "image I(3,3); accum h [0..3] over (x in [0..2], y in [0..2]) sum 1 at I(x, y) % 4;";

/// A picture of the numbers one to nine.
pub const ONE_TO_NINE: &[u8] = b"P2 3 3 255 1 2 3 4 5 6 7 8 9";

/// A picture of thirty-six samples that are 1.
pub const ONES: &[u8] =
    b"P2 6 6 1 1 1 1 1 1 1 1 1 1 1 1 1 1 1 1 1 1 1 1 1 1 1 1 1 1 1 1 1 1 1 1 1 1 1 1 1";

fn parse_and_check_example(alloc: Global, text: &str) -> Result<Checked, Fail> {
    match check(alloc, parse(alloc, text.as_bytes())?) {
        Ok(checked) => Ok(checked),
        Err((_, fault)) => Err(Fail::new(fault)),
    }
}

fn bind_example_program(
    alloc: Global,
    checked: Checked,
    params: &Params,
    picture: Picture,
    sides: TileSides,
) -> Result<Job, Fail>
    ensures { IfOk result (λ job. IsJob (pipeline_in job)) }
{
    match binding::bind(alloc, checked, params, Vec::new(alloc), picture, sides) {
        Ok(job) => Ok(job),
        Err((_, _, _, fault)) => Err(Fail::new(fault)),
    }
}

/// The job of a text, a file of a picture and the sides of tiles.
pub fn bind_example_job(
    alloc: Global,
    text: &str,
    file: &[u8],
    sides: (u32, u32),
) -> Result<Job, Fail>
    ensures { IfOk result (λ job. IsJob (pipeline_in job)) }
{
    let sides = TileSides::new(sides.0, sides.1).ok_or("no sides")?;
    let picture = read(alloc, file)?;
    let checked = parse_and_check_example(alloc, text)?;
    let params = Params::of(alloc, &checked)?;
    bind_example_program(alloc, checked, &params, picture, sides)
}

/// Fails where a job has more stages than the tests' programs have.
pub fn assert_few_stages(job: &Job) -> Result<(), Fail>
    ensures { IfOk result (λ _. length (pipeline_in job.now).stages ≤ 64) }
{
    if job.stages().len() > 64 {
        return Err(Fail::new("too many stages"));
    }
    Ok(())
}

/// The schedule that stores each function.
pub fn make_example_stored_schedule(alloc: Global, job: &Job) -> Result<Schedule, Fail>
    ensures { IfOk result (IsScheduleOf (pipeline_in job.now)) }
{
    Ok(Schedule::stored(alloc, job)?)
}

/// The catalog of one job.
pub fn make_example_catalog(alloc: Global, job: Job) -> Result<Catalog, Fail> {
    let mut jobs = Catalog::new(alloc);
    match jobs.admit(job) {
        Ok(_) => Ok(jobs),
        Err(_) => Err(Fail::new("the job is refused")),
    }
}

/// The key of a tile of the job at this index.
pub fn find_example_tile_key(
    jobs: &Catalog,
    index: usize,
    stage: u16,
    row: u32,
    col: u32,
) -> Option<Key> {
    let ids = compute_catalog_job_ids(jobs.job(index)?);
    Some(Key {
        program: ids.program,
        input: ids.input,
        stage,
        row,
        col,
    })
}

//! Public calls, each made once with a proof that its requirements hold. Worked rows, histories and comparisons are in
//! `tests/native`, which are run and not proved.
//!
//! Words: example, assert, example job, example program, example catalog, example answer, example partial.
#![tactic(auto)]

#[cfg(test)]
mod answers;
#[cfg(test)]
mod buffers;
#[cfg(test)]
mod checks;
#[cfg(test)]
mod jobs;
#[cfg(test)]
mod makes;
#[cfg(test)]
mod totals;
#[cfg(test)]
mod worlds_run;

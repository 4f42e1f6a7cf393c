//! From a checked program to a job: names become numbers of stages, parameters their values, and the picture takes its place.
//! Otherwise the first fault is reported.
//!
//! Words: bind, resolve, job resolver, resolved stage, job part, declared picture, supplied table, infer parameter, sought
//! parameter.
#![tactic(auto)]

mod bound;
mod fault;
mod fits;
mod handed;
pub mod laws;
mod outputs;
mod resolve;
mod settings;
mod sizes;
mod stages;

pub use bound::bind;
pub use fault::BindFault;

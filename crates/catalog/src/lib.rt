//! A catalog: up to 16 jobs, distinguished by their identities; and types that name one, for contracts.
//!
//! Words: catalog, catalog job.
#![tactic(auto)]

mod catalog;
mod fault;
mod ids;
mod named_catalog;

pub use catalog::{Catalog, MOST_JOBS};
pub use fault::AdmitFault;
pub use ids::compute_catalog_job_ids;
pub use named_catalog::NamedCatalog;

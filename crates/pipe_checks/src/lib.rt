//! Whether a program is well-formed: each name denotes what its place requires, and no stage reads itself through others.
//!
//! Words: check, checked, access, symbol, declared, redeclaring, variable, name role, same name, kernel side, stage links,
//! read graph, graph rank, cycle.
#![tactic(auto)]

mod access;
mod checked;
mod cycles;
mod fault;
mod graph;
mod ranks;
mod symbol;
mod table;
mod twice;
mod uniqueness;
mod uses;

pub use access::{Access, collect_expr_accesses, push_expr_accesses};
pub use checked::{Checked, check};
pub use fault::{CheckFault, Cycle};
pub use symbol::{
    Symbol, SymbolKind, declared_stages, declared_tables, find_symbol_number, is_same_name,
};
pub use uniqueness::check_faults_are_determined;

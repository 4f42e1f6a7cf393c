//! Functions that divide a sum of products of numbers and reads, and means of nine adjacent values. The sums are computed in 32 bits from
//! numbers of 16 bits, however they are spelled, and what is made of them are numbers of 16 bits again.
//!
//! Words: linear, linear row, linear sum, linear tap, linear line, linear function, linear quotient, linear mean, linear kernel,
//! linear bound, linear factor, linear formula, linear term, linear number.
#![tactic(auto)]

mod linear_formulas;
mod linear_lines;
mod linear_make;
mod linear_means;
mod linear_quotient;
mod linear_quotients;
mod linear_rows;
mod linear_sums;
mod linear_taps;

pub use linear_rows::{LinearRow, find_linear_row, write_linear_row};

//! One line of a text.

ghost use Rattle.std.specs.Prelude.{◌≡◌, ◌<◌, ◌++◌, ◌↔◌, List, ℕ, IfOk, IfErr, OnOk, IsTrue, length};
ghost use Rattle.fact_lines.specs.Texts.{IsDigitsOf, IsFileLine};
ghost use Rattle.fact_lines.specs.Faults.{IsLineFault};
ghost use Rattle.fact_lines.specs.inside.Gathering.{Adds, told};

use crate::contents::FactFileContents;
use crate::fault::FactLinesFault;
use std::alloc::Global;
use tile_fact::{FactFault, FactFile, decode};

/// Adds what the line of this number holds: the retired jobs and the facts of its file, or nothing if it is empty.
pub fn add_fact_file_line(
    alloc: Global,
    number: usize,
    line: &[u8],
    contents: &mut FactFileContents,
) -> Result<(), FactLinesFault>
    ensures added { OnOk result (Adds line.now contents.old.retired.items contents.old.facts.items
        contents.new.retired.items contents.new.facts.items) }
    ensures fault { IfErr result (IsLineFault number line.now) }
{
    if line.is_empty() {
        return Ok(());
    }
    let file = decode_fact_file_line(alloc, number, line)?;
    contents.retired.append(&mut file.retired.into_vec())?;
    contents.facts.append(&mut file.facts.into_vec())?;
    Ok(())
}

// The file of a line.
fn decode_fact_file_line(
    alloc: Global,
    number: usize,
    line: &[u8],
) -> Result<FactFile, FactLinesFault>
    requires { 0 < length line.now }
    ensures found { IfOk result (λ file. IsFileLine line.now file.retired file.facts) }
    ensures fault { IfErr result (IsLineFault number line.now) }
{
    if !is_hex_fact_line(line) {
        return Err(FactLinesFault::BadHex { line: number });
    }
    let bytes = match hex::decode(alloc, line) {
        Ok(bytes) => bytes,
        Err(_) => return Err(FactLinesFault::Memory),
    };
    match decode(alloc, &bytes) {
        Ok(file) => Ok(file),
        Err(fault) => Err(attach_fact_line_number_to_fault(number, fault)),
    }
}

// How a fault of the file on the line of this number is reported.
fn attach_fact_line_number_to_fault(number: usize, fault: FactFault) -> FactLinesFault
    ensures { result ≡ told number fault }
{
    match fault {
        FactFault::Memory => FactLinesFault::Memory,
        fault => FactLinesFault::BadFile {
            line: number,
            fault,
        },
    }
}

// Whether the line is hexadecimal digits, two for each byte.
fn is_hex_fact_line(line: &[u8]) -> bool
    ensures { IsTrue result ↔ ((bytes : List ℕ) × IsDigitsOf line.now bytes) }
{
    line.len() % 2 == 0 && line.iter().all(|digit| digit.is_ascii_hexdigit())
}

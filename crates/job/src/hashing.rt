#![tactic(auto)]
//! What is hashed of a job: its program's canonical text, and the program's input.

ghost use Rattle.std.specs.Prelude.{◌≡◌, ◌++◌, ◌∷◌, [], ℕ, List, length, map, IfOk, OnOk};
ghost use Rattle.std.specs.List.{flat_map};
ghost use Rattle.std.specs.Int.{w16, to_be_bytes};
ghost use Rattle.sha2.specs.Sha256.{sha256};
ghost use Rattle.job.specs.Identity.{entry_bytes, given_bytes, parameter_bytes, settings_bytes, table_bytes, tables_bytes};
ghost use Rattle.job.specs.Identity.{input_bytes, input_id};
ghost use Rattle.job.specs.Views.{parameter_view, pipeline_of};

use crate::bound_pipeline::BoundPipeline;
use crate::outputs::Parameter;
use identity::{InputId, ProgramId};
use netpbm::{hash_raw_picture, raw};
use pipe_tokens::Name;
use sha2::{Digest, Sha256};
use std::alloc::{AllocError, Global};
use tables::Table;

/// The identity of the program of this canonical text.
pub(crate) fn hash_job_program(text: &[u8]) -> ProgramId
    ensures { result ≡ sha256 text.now }
{
    ProgramId::new(Sha256::digest(text))
}

/// The identity of a program's input. Each part is hashed as it is visited, without memory.
pub(crate) fn hash_job_input(parts: &BoundPipeline) -> InputId
    ensures { result ≡ input_id (pipeline_of parts.now) }
{
    let mut hasher = Sha256::new();
    hash_input_parts_before_picture(&mut hasher, parts);
    hash_raw_picture(&parts.picture, &mut hasher);
    InputId::new(hasher.finalize())
}

// What is hashed before the picture.
fn hash_input_parts_before_picture<D: Digest>(hasher: &mut D, parts: &BoundPipeline)
    ensures { (m : List ℕ) → D.holds hasher.old m
        → D.holds hasher.new (m ++ settings_bytes (pipeline_of parts.now)) }
{
    let tables = parts.tables.as_slice();
    if tables.is_empty() {
        hasher.update(b"PTI1");
        hash_input_sides_and_parameters(hasher, parts);
    } else {
        hasher.update(b"PTI2");
        hash_input_sides_and_parameters(hasher, parts);
        hash_input_tables(hasher, tables);
    }
}

// The sides of the tiles and the parameters.
fn hash_input_sides_and_parameters<D: Digest>(hasher: &mut D, parts: &BoundPipeline)
    ensures { (m : List ℕ) → D.holds hasher.old m
        → D.holds hasher.new (m ++ given_bytes (pipeline_of parts.now)) }
{
    let parameters = parts.params.as_slice();
    hasher.update(&parts.sides.height().to_be_bytes());
    hasher.update(&parts.sides.width().to_be_bytes());
    hasher.update(&encode_input_count(parameters.len()));
    hash_input_parameters(hasher, parameters);
}

fn hash_input_parameters<D: Digest>(hasher: &mut D, parameters: &[Parameter])
    ensures { (m : List ℕ) → D.holds hasher.old m
        → D.holds hasher.new (m ++ flat_map parameter_bytes (map parameter_view parameters.now)) }
{
    for parameter in parameters {
        hash_input_parameter(hasher, parameter);
    }
}

fn hash_input_parameter<D: Digest>(hasher: &mut D, parameter: &Parameter)
    ensures { (m : List ℕ) → D.holds hasher.old m
        → D.holds hasher.new (m ++ parameter_bytes (parameter_view parameter.now)) }
{
    hash_input_name(hasher, &parameter.name);
    hasher.update(&parameter.value.to_be_bytes());
}

// The length of a name in 8 bits, and the name.
fn hash_input_name<D: Digest>(hasher: &mut D, name: &Name)
    ensures { (m : List ℕ) → D.holds hasher.old m
        → D.holds hasher.new (m ++ (length name.now ∷ [] ++ name.now)) }
{
    let name = name.as_bytes();
    hasher.update(&[name.len() as u8]);
    hasher.update(name);
}

// The number of tables, and the tables.
fn hash_input_tables<D: Digest>(hasher: &mut D, tables: &[Table])
    ensures { (m : List ℕ) → D.holds hasher.old m
        → D.holds hasher.new (m ++ tables_bytes tables.now) }
{
    hasher.update(&encode_input_count(tables.len()));
    hash_input_tables_without_count(hasher, tables);
}

fn hash_input_tables_without_count<D: Digest>(hasher: &mut D, tables: &[Table])
    ensures { (m : List ℕ) → D.holds hasher.old m
        → D.holds hasher.new (m ++ flat_map table_bytes tables.now) }
{
    for table in tables {
        hash_input_table(hasher, table);
    }
}

fn hash_input_table<D: Digest>(hasher: &mut D, table: &Table)
    ensures { (m : List ℕ) → D.holds hasher.old m
        → D.holds hasher.new (m ++ table_bytes table.now) }
{
    let values = table.values.as_slice();
    hash_input_name(hasher, &table.name);
    hasher.update(&table.lo.to_be_bytes());
    hasher.update(&encode_input_count(values.len()));
    hash_input_table_entries(hasher, values);
}

fn hash_input_table_entries<D: Digest>(hasher: &mut D, entries: &[i32])
    ensures { (m : List ℕ) → D.holds hasher.old m
        → D.holds hasher.new (m ++ flat_map entry_bytes entries.now) }
{
    for entry in entries {
        hasher.update(&entry.to_be_bytes());
    }
}

/// The bytes whose digest is the identity of a program's input.
pub(crate) fn encode_input_bytes(
    alloc: Global,
    parts: &BoundPipeline,
) -> Result<Vec<u8>, AllocError>
    ensures { IfOk result (λ bytes. bytes.items ≡ input_bytes (pipeline_of parts.now)) }
{
    let mut bytes = encode_input_parts_before_picture(alloc, parts)?;
    let picture = raw(alloc, &parts.picture)?;
    bytes.extend_from_slice(&picture)?;
    Ok(bytes)
}

// What is hashed before the picture.
fn encode_input_parts_before_picture(
    alloc: Global,
    parts: &BoundPipeline,
) -> Result<Vec<u8>, AllocError>
    ensures { IfOk result (λ bytes. bytes.items ≡ settings_bytes (pipeline_of parts.now)) }
{
    let mut bytes = Vec::new(alloc);
    let tables = parts.tables.as_slice();
    if tables.is_empty() {
        bytes.extend_from_slice(b"PTI1")?;
        push_input_sides_and_parameters_bytes(&mut bytes, parts)?;
    } else {
        bytes.extend_from_slice(b"PTI2")?;
        push_input_sides_and_parameters_bytes(&mut bytes, parts)?;
        push_input_tables_bytes(&mut bytes, tables)?;
    }
    Ok(bytes)
}

// The sides of the tiles and the parameters.
fn push_input_sides_and_parameters_bytes(
    bytes: &mut Vec<u8>,
    parts: &BoundPipeline,
) -> Result<(), AllocError>
    ensures { OnOk result (bytes.new.items ≡ bytes.old.items ++ given_bytes (pipeline_of parts.now)) }
{
    bytes.extend_from_slice(&parts.sides.height().to_be_bytes())?;
    bytes.extend_from_slice(&parts.sides.width().to_be_bytes())?;
    bytes.extend_from_slice(&encode_input_count(parts.params.len()))?;
    for parameter in &parts.params {
        push_input_parameter_bytes(bytes, parameter)?;
    }
    Ok(())
}

// The number of tables, and the tables.
fn push_input_tables_bytes(bytes: &mut Vec<u8>, tables: &[Table]) -> Result<(), AllocError>
    ensures { OnOk result (bytes.new.items ≡ bytes.old.items ++ tables_bytes tables.now) }
{
    bytes.extend_from_slice(&encode_input_count(tables.len()))?;
    for table in tables {
        push_input_table_bytes(bytes, table)?;
    }
    Ok(())
}

fn push_input_table_bytes(bytes: &mut Vec<u8>, table: &Table) -> Result<(), AllocError>
    ensures { OnOk result (bytes.new.items ≡ bytes.old.items ++ table_bytes table.now) }
{
    let values = table.values.as_slice();
    push_input_name_bytes(bytes, &table.name)?;
    bytes.extend_from_slice(&table.lo.to_be_bytes())?;
    bytes.extend_from_slice(&encode_input_count(values.len()))?;
    push_input_table_entries_bytes(bytes, values)
}

fn push_input_table_entries_bytes(bytes: &mut Vec<u8>, entries: &[i32]) -> Result<(), AllocError>
    ensures { OnOk result (bytes.new.items ≡ bytes.old.items ++ flat_map entry_bytes entries.now) }
{
    for entry in entries {
        bytes.extend_from_slice(&entry.to_be_bytes())?;
    }
    Ok(())
}

// A number of parameters, tables or entries in 16 bits. A text has at most 64 parameters and 16 tables, a table 4,096 entries.
fn encode_input_count(count: usize) -> [u8; 2]
    ensures { result ≡ to_be_bytes w16 count }
{
    ((count % 65536) as u16).to_be_bytes()
}

fn push_input_parameter_bytes(bytes: &mut Vec<u8>, parameter: &Parameter) -> Result<(), AllocError>
    ensures { OnOk result
        (bytes.new.items ≡ bytes.old.items ++ parameter_bytes (parameter_view parameter.now)) }
{
    push_input_name_bytes(bytes, &parameter.name)?;
    bytes.extend_from_slice(&parameter.value.to_be_bytes())
}

// The length of a name in 8 bits, and the name.
fn push_input_name_bytes(bytes: &mut Vec<u8>, name: &Name) -> Result<(), AllocError>
    ensures { OnOk result (bytes.new.items ≡ bytes.old.items ++ (length name.now ∷ [] ++ name.now)) }
{
    let name = name.as_bytes();
    bytes.push(name.len() as u8)?;
    bytes.extend_from_slice(name)
}

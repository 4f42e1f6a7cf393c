//! Records of a fact file, at their places in its bytes.

ghost use Rattle.std.specs.Prelude.{◌≡◌, ◌≤◌, ◌+◌, length, take, drop, IfOk};
ghost use Rattle.std.specs.Int.{w32, from_be_bytes};
ghost use Rattle.tile_fact.specs.Bodies.{IsWithin};
ghost use Rattle.tile_fact.specs.Gives.{Gives};
ghost use Rattle.tile_fact.specs.Numbers.{key_in, body_in, fact_of};
ghost use Rattle.tile_fact.specs.Order.{fact_cmp, body_cmp};
ghost use Rattle.tile_fact.specs.Reading.{part_read, count_read, kind_read, length_read, record_read};

use crate::body::Body;
use crate::fact::Fact;
use crate::fault::FactFault;
use crate::kind::FactBodyKind;
use crate::number_bytes::{
    compare_encoded_fact_bins, compare_encoded_fact_samples, decode_fact_bins, decode_fact_samples,
};
use crate::numbers::{Bins, Samples};
use identity::{InputId, Key, ProgramId};
use std::alloc::{AllocError, Global};
use std::cmp::Ordering;

/// What a record has before its numbers.
#[derive(Clone, Copy)]
pub struct FactRecordLabel {
    pub key: Key,
    pub kind: FactBodyKind,
}

/// A record whose numbers are still bytes.
#[derive(Clone, Copy)]
pub struct FactRecord<'a> {
    pub label: FactRecordLabel,
    pub numbers: &'a [u8],
}

impl<'a> FactRecord<'a> {
    /// The order of the facts that the records spell.
    #[tactic(auto, unfolding(crate::specs::Order::fact_cmp))]
    pub fn compare(&self, other: &FactRecord<'_>) -> Ordering
        ensures { result
            ≡ fact_cmp (fact_of self.now.label.key self.now.label.kind self.now.numbers.now)
            (fact_of other.now.label.key other.now.label.kind other.now.numbers.now) }
    {
        match self.label.key.cmp(&other.label.key) {
            Ordering::Equal => {
                compare_encoded_fact_bodies(
                    self.label.kind,
                    self.numbers,
                    other.label.kind,
                    other.numbers,
                )
            }
            unequal => unequal,
        }
    }

    /// The fact that the record spells.
    pub fn to_fact(&self, alloc: Global) -> Result<Fact, AllocError>
        requires { IsWithin (body_in self.now.label.kind self.now.numbers.now) }
        ensures { IfOk result
            (λ fact. fact ≡ fact_of self.now.label.key self.now.label.kind self.now.numbers.now) }
    {
        let body = match self.label.kind {
            FactBodyKind::OfTile => Body::Tile(Samples::new(decode_fact_samples(
                alloc,
                self.numbers,
            )?)?),
            FactBodyKind::OfPartial => Body::Partial(Bins::new(decode_fact_bins(
                alloc,
                self.numbers,
            )?)?),
        };
        match Fact::new(self.label.key, body) {
            Ok(fact) => Ok(fact),
            Err(_) => unreachable!(),
        }
    }
}

// The order of kind and numbers.
fn compare_encoded_fact_bodies(
    a_kind: FactBodyKind,
    a: &[u8],
    b_kind: FactBodyKind,
    b: &[u8],
) -> Ordering
    ensures { result ≡ body_cmp (body_in a_kind a.now) (body_in b_kind b.now) }
{
    match (a_kind, b_kind) {
        (FactBodyKind::OfTile, FactBodyKind::OfTile) => compare_encoded_fact_samples(a, b),
        (FactBodyKind::OfTile, FactBodyKind::OfPartial) => Ordering::Less,
        (FactBodyKind::OfPartial, FactBodyKind::OfTile) => Ordering::Greater,
        (FactBodyKind::OfPartial, FactBodyKind::OfPartial) => compare_encoded_fact_bins(a, b),
    }
}

/// The record in front of the bytes, which are the last of `total`, and the bytes after it.
#[tactic(auto, unfolding(crate::specs::Reading::record_read))]
pub fn read_fact_record(total: usize, bytes: &[u8]) -> Result<(FactRecord<'_>, &[u8]), FactFault>
    requires { length bytes.now ≤ total }
    ensures read { Gives (λ x. (fact_of x.0.label.key x.0.label.kind x.0.numbers.now, x.1.now)) result
        (record_read total bytes.now) }
    ensures within { IfOk result (λ x. IsWithin (body_in x.0.label.kind x.0.numbers.now)) }
    ensures behind { IfOk result (λ x. length x.1.now ≤ total) }
{
    let (part, rest) = split_fact_file_bytes(total, 74, bytes)?;
    let key = decode_fact_key(part);
    let (kind, rest) = read_fact_body_kind(total, rest)?;
    let (len, rest) = read_fact_body_number_count(total, kind, rest)?;
    let (numbers, behind) = split_fact_file_bytes(
        total,
        len * kind.count_bytes_of_one_number(),
        rest,
    )?;
    let label = FactRecordLabel { key, kind };
    Ok((FactRecord { label, numbers }, behind))
}

// `len` bytes, and those after them.
#[tactic(auto, unfolding(crate::specs::Reading::part_read))]
fn split_fact_file_bytes(
    total: usize,
    len: usize,
    bytes: &[u8],
) -> Result<(&[u8], &[u8]), FactFault>
    ensures { Gives (λ x. (x.0.now, x.1.now)) result (part_read total len bytes.now) }
{
    if bytes.len() < len {
        return Err(FactFault::Cut(total));
    }
    Ok(bytes.split_at(len))
}

/// A count in four bytes, and the bytes after it.
#[tactic(auto, unfolding(crate::specs::Reading::count_read))]
pub fn read_fact_file_u32(total: usize, bytes: &[u8]) -> Result<(u32, &[u8]), FactFault>
    ensures read { Gives (λ x. (x.0, x.1.now)) result (count_read total bytes.now) }
    ensures behind { IfOk result (λ x. length x.1.now ≤ length bytes.now) }
{
    let (part, rest) = split_fact_file_bytes(total, 4, bytes)?;
    Ok((decode_fact_file_u32_at_offset(part, 0), rest))
}

// The key that these bytes are.
fn decode_fact_key(bytes: &[u8]) -> Key
    requires { length bytes.now ≡ 74 }
    ensures { result ≡ key_in bytes.now }
{
    Key {
        program: ProgramId::new(decode_fact_file_digest_at_offset(bytes, 0)),
        input: InputId::new(decode_fact_file_digest_at_offset(bytes, 32)),
        stage: u16::from_be_bytes([bytes[64], bytes[65]]),
        row: decode_fact_file_u32_at_offset(bytes, 66),
        col: decode_fact_file_u32_at_offset(bytes, 70),
    }
}

/// The digest at this place.
pub fn decode_fact_file_digest_at_offset(bytes: &[u8], at: usize) -> [u8; 32]
    requires { at + 32 ≤ length bytes.now }
    ensures { result ≡ take 32 (drop at bytes.now) }
{
    let mut digest = [0; 32];
    digest.copy_from_slice(&bytes[at..at + 32]);
    digest
}

fn decode_fact_file_u32_at_offset(bytes: &[u8], at: usize) -> u32
    requires { at + 4 ≤ length bytes.now }
    ensures { result ≡ from_be_bytes w32 (take 4 (drop at bytes.now)) }
{
    u32::from_be_bytes([bytes[at], bytes[at + 1], bytes[at + 2], bytes[at + 3]])
}

#[tactic(auto, unfolding(crate::specs::Reading::kind_read))]
fn read_fact_body_kind(total: usize, bytes: &[u8]) -> Result<(FactBodyKind, &[u8]), FactFault>
    requires { length bytes.now ≤ total }
    ensures { Gives (λ x. (x.0, x.1.now)) result (kind_read total bytes.now) }
{
    match bytes {
        [] => Err(FactFault::Cut(total)),
        [0, rest @ ..] => Ok((FactBodyKind::OfTile, rest)),
        [1, rest @ ..] => Ok((FactBodyKind::OfPartial, rest)),
        [_, ..] => Err(FactFault::BadKind(total - bytes.len())),
    }
}

#[tactic(auto, unfolding(crate::specs::Reading::length_read))]
fn read_fact_body_number_count(
    total: usize,
    kind: FactBodyKind,
    bytes: &[u8],
) -> Result<(usize, &[u8]), FactFault>
    requires { length bytes.now ≤ total }
    ensures { Gives (λ x. (x.0, x.1.now)) result (length_read total kind bytes.now) }
{
    let (len, rest) = read_fact_file_u32(total, bytes)?;
    let len = len as usize;
    if kind.find_max_number_count() < len {
        return Err(FactFault::TooLong(total - bytes.len()));
    }
    Ok((len, rest))
}

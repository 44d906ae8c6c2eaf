//! Metadata of zoned layouts.

ghost use Rattle.std.specs.Prelude.{◌≡◌, ◌++◌, ◌<◌, ◌^◌, length, map, IsTrue, IfOk, OnOk};
ghost use Rattle.vx_model.specs.Words.{joined_by, all_by};
ghost use Rattle.vx_byte_reader.specs.Fields.{many_at};
ghost use Rattle.vx_metadata.specs.Spelled.{counted, spec_bytes};
ghost use Rattle.vx_metadata.specs.Values.{is_short_spec, has_text_id};
ghost use Rattle.vx_metadata.specs.Reading.{spec_at as one_spec, zoned_body, zoned_in};
ghost use Rattle.vx_metadata.specs.Views.{Gives, Reads, spec_of, zoned};

use crate::error::{MetadataError, refused};
use crate::fields::{blob_at, count_at, text_at};
use crate::read_error::ReadError;
use std::alloc::{AllocError, Global};
use vx_model::{Blob, Text};

/// An aggregate of a zone table, as bytes name it.
#[derive(Debug, Drop)]
pub struct AggregateSpec {
    pub id: Text,
    pub options: Blob,
}

/// Of a zoned layout: how many rows a zone has, and what the columns of its table record.
#[derive(Debug, Drop)]
pub struct ZonedMetadata {
    pub zone_len: u32,
    pub specs: Vec<AggregateSpec>,
}

impl ZonedMetadata {
    ghost use Rattle.std.specs.Prelude.{◌≡◌, Some, IfOk, IsTrue};
    ghost use Rattle.vx_metadata.specs.Spelled.{zoned_bytes};
    ghost use Rattle.vx_metadata.specs.Values.{Zoned, IsZoned, is_short as is_short_zoned};
    ghost use Rattle.vx_metadata.specs.Reading.{zoned_in};
    ghost use Rattle.vx_metadata.specs.Views.{Gives, zoned};

    /// Whether there are fewer than 2^32 specs, and each id and all options have fewer than 2^32 bytes.
    #[tactic(auto, using(crate::proofs::Specs::zoned_rules))]
    pub fn is_short(&self) -> bool
        ensures short { result ≡ is_short_zoned (zoned self.now) }
        // Then it is read back from its bytes.
        ensures zoned { IsTrue result → IsZoned (zoned self.now) }
    {
        // It has 32 bits.
        let _zone_len = self.zone_len;
        (self.specs.len() as u64) < 4_294_967_296 && are_short(&self.specs)
    }

    /// `is_short` tests the condition.
    pub fn serialize(&self, alloc: Global) -> Result<Vec<u8>, AllocError>
        requires { IsTrue (is_short_zoned (zoned self.now)) }
        ensures { IfOk result (λ v. v.items ≡ zoned_bytes (zoned self.now)) }
    {
        let mut out = Vec::new(alloc);
        out.push(1)?;
        out.extend_from_slice(&self.zone_len.to_le_bytes())?;
        out.extend_from_slice(&(self.specs.len() as u32).to_le_bytes())?;
        push_specs(&mut out, &self.specs)?;
        Ok(out)
    }

    /// The bytes bound the number of specs, whatever they claim.
    pub fn deserialize(alloc: Global, bytes: &[u8]) -> Result<ZonedMetadata, MetadataError>
        // What is read has these bytes.
        ensures found { IfOk result (λ m. IsZoned (zoned m) × (zoned_bytes (zoned m) ≡ bytes.now)) }
        // A value that has these bytes is read, unless memory runs out.
        ensures only { (z : Zoned) → IsZoned z → zoned_bytes z ≡ bytes.now → Gives zoned bytes.now result (Some z) }
        ensures exact { Gives zoned bytes.now result (zoned_in bytes.now) }
    {
        read(alloc, bytes)
    }
}

#[tactic(auto, using(crate::proofs::Specs::spec_rules))]
fn are_short(specs: &[AggregateSpec]) -> bool
    ensures short { result ≡ all_by is_short_spec (map spec_of specs.now) }
    ensures ids { IsTrue result → IsTrue (all_by has_text_id (map spec_of specs.now)) }
{
    for spec in specs {
        if !is_short(spec) {
            return false;
        }
    }
    true
}

fn is_short(spec: &AggregateSpec) -> bool
    ensures short { result ≡ is_short_spec (spec_of spec.now) }
    ensures id { IsTrue (has_text_id (spec_of spec.now)) }
{
    (spec.id.as_str().len() as u64) < 4_294_967_296
        && (spec.options.as_slice().len() as u64) < 4_294_967_296
}

#[tactic(auto, using(crate::proofs::Specs::spec_rules))]
fn push_specs(out: &mut Vec<u8>, specs: &[AggregateSpec]) -> Result<(), AllocError>
    requires { IsTrue (all_by is_short_spec (map spec_of specs.now)) }
    ensures { OnOk result (out.new.items ≡ out.old.items ++ joined_by spec_bytes (map spec_of specs.now)) }
{
    for spec in specs {
        push_counted(out, spec.id.as_str().as_bytes())?;
        push_counted(out, spec.options.as_slice())?;
    }
    Ok(())
}

#[tactic(auto, using(crate::proofs::Specs::spec_rules))]
fn push_counted(out: &mut Vec<u8>, bytes: &[u8]) -> Result<(), AllocError>
    requires { length bytes.now < 2 ^ 32 }
    ensures { OnOk result (out.new.items ≡ out.old.items ++ counted bytes.now) }
{
    out.extend_from_slice(&(bytes.len() as u32).to_le_bytes())?;
    out.extend_from_slice(bytes)?;
    Ok(())
}

fn read(alloc: Global, bytes: &[u8]) -> Result<ZonedMetadata, MetadataError>
    ensures { Gives zoned bytes.now result (zoned_in bytes.now) }
{
    match read_versioned(alloc, bytes) {
        Ok(metadata) => Ok(metadata),
        Err(ReadError::NotSpelled) => Err(refused(alloc, bytes)),
        Err(ReadError::OutOfMemory) => Err(MetadataError::OutOfMemory),
    }
}

fn read_versioned(alloc: Global, bytes: &[u8]) -> Result<ZonedMetadata, ReadError>
    ensures { Reads zoned result (zoned_in bytes.now) }
{
    match bytes {
        [1, rest @ ..] => read_body(alloc, rest),
        [] | [_, ..] => Err(ReadError::NotSpelled),
    }
}

#[tactic(auto, unfolding(crate::specs::Reading::zoned_body))]
fn read_body(alloc: Global, bytes: &[u8]) -> Result<ZonedMetadata, ReadError>
    ensures { Reads zoned result (zoned_body bytes.now) }
{
    let (zone_len, rest) = count_at(bytes)?;
    let (count, rest) = count_at(rest)?;
    let (specs, rest) = read_specs(alloc, count, rest)?;
    if !rest.is_empty() {
        return Err(ReadError::NotSpelled);
    }
    Ok(ZonedMetadata { zone_len, specs })
}

fn read_specs(
    alloc: Global,
    count: u32,
    bytes: &[u8],
) -> Result<(Vec<AggregateSpec>, &[u8]), ReadError>
    ensures { Reads (λ x. (map spec_of x.0.items, x.1.now)) result (many_at one_spec count bytes.now) }
{
    let mut specs = Vec::new(alloc);
    let mut rest = bytes;
    for _ in 0..count {
        let (spec, after) = read_spec(alloc, rest)?;
        specs.push(spec)?;
        rest = after;
    }
    Ok((specs, rest))
}

#[tactic(auto, unfolding(crate::specs::Reading::spec_at))]
fn read_spec(alloc: Global, bytes: &[u8]) -> Result<(AggregateSpec, &[u8]), ReadError>
    ensures { Reads (λ x. (spec_of x.0, x.1.now)) result (one_spec bytes.now) }
{
    let (id, rest) = text_at(alloc, bytes)?;
    let (options, rest) = blob_at(alloc, rest)?;
    Ok((AggregateSpec { id, options }, rest))
}

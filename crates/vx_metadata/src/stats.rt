//! Metadata of legacy layouts with statistics.

ghost use Rattle.std.specs.Prelude.{◌≡◌, ◌++◌, IsTrue, IfOk, OnOk};
ghost use Rattle.vx_model.specs.Words.{total_by};
ghost use Rattle.vx_metadata.specs.Spelled.{stat_bit as bit_of};
ghost use Rattle.vx_metadata.specs.Values.{are_in_order as in_order};
ghost use Rattle.vx_metadata.specs.Reading.{held, stats_in, legacy_in};
ghost use Rattle.vx_metadata.specs.Views.{Gives, the_same};

use crate::error::{MetadataError, refused};
use std::alloc::{AllocError, Global};
use std::marker::Model;
use vx_aggregate::Stat;

/// Of a legacy layout with statistics: how many rows a zone has, and the statistics, in order, each once.
#[derive(Debug, Drop)]
pub struct LegacyStatsMetadata {
    zone_len: u32,
    stats: Vec<Stat>,
}

impl Model for LegacyStatsMetadata {
    ghost use Rattle.std.specs.Prelude.{IsTrue, List, ℕ};
    ghost use Rattle.vx_aggregate.specs.declared.stat.Stat.{Stat};
    ghost use Rattle.vx_metadata.specs.Values.{are_in_order};

    ghost Value = { ℕ × List Stat };

    ghost view = { λ m. (m.zone_len, m.stats.items) };

    ghost invariant = { λ m. IsTrue (are_in_order m.stats.items) };
}

impl LegacyStatsMetadata {
    ghost use Rattle.std.specs.Prelude.{◌≡◌, ◌<◌, ◌^◌, ℕ, List, Some, IfOk, IsTrue};
    ghost use Rattle.vx_aggregate.specs.declared.stat.Stat.{Stat};
    ghost use Rattle.vx_metadata.specs.Spelled.{legacy_bytes};
    ghost use Rattle.vx_metadata.specs.Values.{are_in_order as in_order};
    ghost use Rattle.vx_metadata.specs.Reading.{legacy_in};
    ghost use Rattle.vx_metadata.specs.Views.{Gives, the_same};

    /// `are_in_order` tests the condition.
    pub fn new(zone_len: u32, stats: Vec<Stat>) -> LegacyStatsMetadata
        requires { IsTrue (in_order stats.items) }
        ensures { result ≡ (zone_len, stats.items) }
    {
        LegacyStatsMetadata { zone_len, stats }
    }

    /// Rows of a zone.
    pub fn zone_len(&self) -> u32
        ensures { result ≡ self.now.0 }
    {
        self.zone_len
    }

    /// In order, each once.
    pub fn stats(&self) -> &[Stat]
        ensures stats { result.now ≡ self.now.1 }
        ensures ordered { IsTrue (in_order self.now.1) }
    {
        self.stats.as_slice()
    }

    /// Five bytes.
    pub fn serialize(&self, alloc: Global) -> Result<Vec<u8>, AllocError>
        ensures { IfOk result (λ v. v.items ≡ legacy_bytes self.now) }
    {
        let mut out = Vec::new(alloc);
        out.extend_from_slice(&self.zone_len.to_le_bytes())?;
        out.push(bits_of(&self.stats))?;
        Ok(out)
    }

    /// `Metadata` where there are not five bytes, or the last has a bit that stands for no statistic.
    pub fn deserialize(alloc: Global, bytes: &[u8]) -> Result<LegacyStatsMetadata, MetadataError>
        // What is read has these bytes.
        ensures found { IfOk result (λ m. legacy_bytes m ≡ bytes.now) }
        // A value that has these bytes is read, unless memory runs out.
        ensures only { (zone_len : ℕ) (stats : List Stat) → zone_len < 2 ^ 32 → IsTrue (in_order stats) → legacy_bytes (zone_len, stats) ≡ bytes.now → Gives the_same bytes.now result (Some (zone_len, stats)) }
        ensures exact { Gives the_same bytes.now result (legacy_in bytes.now) }
    {
        read(alloc, bytes)
    }
}

fn read(alloc: Global, bytes: &[u8]) -> Result<LegacyStatsMetadata, MetadataError>
    ensures { Gives the_same bytes.now result (legacy_in bytes.now) }
{
    let [a, b, c, d, bits] = bytes else {
        return Err(refused(alloc, bytes));
    };
    if *bits >= 32 {
        return Err(refused(alloc, bytes));
    }
    let stats = stats_of(alloc, *bits)?;
    Ok(LegacyStatsMetadata {
        zone_len: u32::from_le_bytes([*a, *b, *c, *d]),
        stats,
    })
}

/// Whether the statistics are in order, each once.
#[tactic(auto, using(crate::proofs::StatLaws::order_rules))]
pub fn are_in_order(stats: &[Stat]) -> bool
    ensures { result ≡ in_order stats.now }
{
    for i in 1..stats.len() {
        if stats[i - 1].number() >= stats[i].number() {
            return false;
        }
    }
    true
}

fn stat_bit(stat: Stat) -> u8
    ensures { result ≡ bit_of stat }
{
    match stat {
        Stat::Max => 1,
        Stat::Min => 2,
        Stat::Sum => 4,
        Stat::NullCount => 8,
        Stat::UncompressedSizeInBytes => 16,
    }
}

#[tactic(auto, using(crate::proofs::StatLaws::bit_rules))]
fn bits_of(stats: &[Stat]) -> u8
    requires { IsTrue (in_order stats.now) }
    ensures { result ≡ total_by bit_of stats.now }
{
    let mut bits = 0u8;
    for stat in stats {
        bits += stat_bit(*stat);
    }
    bits
}

#[tactic(auto, using(crate::proofs::StatLaws::held_rules))]
fn push_held(out: &mut Vec<Stat>, bits: u8, stat: Stat) -> Result<(), AllocError>
    ensures { OnOk result (out.new.items ≡ out.old.items ++ held bits stat) }
{
    if bits / stat_bit(stat) % 2 == 1 {
        out.push(stat)?;
    }
    Ok(())
}

#[tactic(auto, using(crate::proofs::StatLaws::held_rules))]
fn stats_of(alloc: Global, bits: u8) -> Result<Vec<Stat>, AllocError>
    ensures { IfOk result (λ v. v.items ≡ stats_in bits) }
{
    let mut stats = Vec::new(alloc);
    push_held(&mut stats, bits, Stat::Max)?;
    push_held(&mut stats, bits, Stat::Min)?;
    push_held(&mut stats, bits, Stat::Sum)?;
    push_held(&mut stats, bits, Stat::NullCount)?;
    push_held(&mut stats, bits, Stat::UncompressedSizeInBytes)?;
    Ok(stats)
}

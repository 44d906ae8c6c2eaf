//! Statistics by their names.

use anyhow::bail;
use std::alloc::Global;
use vx_aggregate::Stat;

/// The statistic of this name.
pub fn stat_of(name: &str) -> anyhow::Result<Stat> {
    for stat in Stat::ALL {
        if stat.name() == name {
            return Ok(stat);
        }
    }
    bail!("no statistic {name}")
}

/// The statistics of these names.
pub fn stats_of(alloc: Global, names: &str) -> anyhow::Result<Vec<Stat>> {
    let mut stats = Vec::new(alloc);
    for name in names.split_whitespace() {
        stats.push(stat_of(name)?)?;
    }
    Ok(stats)
}

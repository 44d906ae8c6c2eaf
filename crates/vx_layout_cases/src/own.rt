//! What layouts of one kind tell besides what all do.

use crate::given::leaves;
use anyhow::{Result, bail};
use std::alloc::Global;
use vx_case_lines::Answer;
use vx_layout::Layout;

pub(crate) fn tell_own(alloc: Global, answer: &mut Answer, layout: &Layout) {
    match layout {
        Layout::Struct(fields) => answer.push(fields.struct_fields().len()),
        Layout::List(list) => {
            answer.push(list.elements().row_count());
            answer.push_str(" ");
            answer.push(list.offsets().row_count());
            answer.push_str(" ");
            answer.push(list.validity().is_some());
            let ptype = list.offsets_ptype();
            write!(answer, " {ptype:?} {}", list.elements_dtype());
        }
        Layout::Dict(dict) => answer.push(dict.has_all_values_referenced()),
        Layout::Zoned(zoned) => {
            answer.push(zoned.zone_len());
            answer.push_str(" ");
            answer.push(zoned.nzones());
            answer.push_str(" ");
            answer.push(zoned.present_aggregates().len());
        }
        Layout::LegacyStats(stats) => {
            answer.push(stats.nzones());
            answer.push_str(" ");
            match stats.present_aggregates(alloc) {
                Ok(present) => {
                    answer.push(present.len());
                    drop(present);
                }
                Err(error) => answer.push(error),
            }
        }
        Layout::Flat(_) | Layout::Chunked(_) | Layout::Foreign(_) => {
            answer.push_str("nothing of its own");
        }
    }
}

/// The chunked layout with these leaves instead.
pub(crate) fn with(alloc: Global, layout: &Layout, args: &str) -> Result<Layout> {
    let Layout::Chunked(chunked) = layout else {
        bail!("no chunks");
    };
    let leaves = leaves(alloc, args)?;
    Ok(chunked.with_children(leaves)?.into_layout())
}

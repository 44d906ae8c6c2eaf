//! How the bytes of a layout are read: the keys that have defaults.

ghost use Rattle.std.specs.Prelude.{◌≡◌, ◌≤◌, map, IfOk};
ghost use Rattle.serde_json.specs.View.{view, items_view, members_view};
ghost use Rattle.vx_session.specs.Encodings.{all_encodings as all_kinds};
ghost use Rattle.vx_json.specs.Values.{all, whole, whole_below};
ghost use Rattle.vx_json.specs.Views as values;
ghost use Rattle.vx_job.specs.TreeText.{kind_named, layout_kind_of, registered_in, allow_unknown_in, depth_in, nodes_in, tree_options_in};
ghost use Rattle.vx_job.specs.TreeView.{tree_options_view};
ghost use Rattle.vx_job.specs.JobView.{Gives};

use crate::error::{JobError, Key, at};
use crate::options::encodings_in;
use serde_json::{Map, Value};
use std::alloc::Global;
use vx_json::{JsonError, member, read_flag, read_items, read_u64};
use vx_layout_bytes::Limits;
use vx_model::ArrayContext;
use vx_session::LayoutEncoding;

/// How the bytes of a layout are read.
#[derive(Drop)]
pub struct TreeOptions {
    pub encodings: ArrayContext,
    /// The kinds that are known.
    pub registered: Vec<LayoutEncoding>,
    /// Whether other kinds, and tables of other aggregates, are kept as they are found.
    pub allow_unknown: bool,
    pub limits: Limits,
}

/// The kind of that id.
fn kind_named(name: &str) -> Option<LayoutEncoding>
    ensures { result ≡ kind_named name.now }
{
    if "vortex.flat" == name {
        Some(LayoutEncoding::Flat)
    } else if "vortex.chunked" == name {
        Some(LayoutEncoding::Chunked)
    } else if "vortex.struct" == name {
        Some(LayoutEncoding::Struct)
    } else if "vortex.list" == name {
        Some(LayoutEncoding::List)
    } else if "vortex.dict" == name {
        Some(LayoutEncoding::Dict)
    } else if "vortex.zoned" == name {
        Some(LayoutEncoding::Zoned)
    } else if "vortex.stats" == name {
        Some(LayoutEncoding::LegacyStats)
    } else {
        None
    }
}

#[tactic(auto, unfolding(crate::specs::TreeText::layout_kind_of))]
fn read_kind(value: &Value) -> Result<LayoutEncoding, JsonError>
    ensures { values.Gives (λ k. k) result (layout_kind_of (view value.now)) }
{
    let Some(name) = value.as_str() else {
        return Err(JsonError::Wrong);
    };
    match kind_named(name) {
        Some(kind) => Ok(kind),
        None => Err(JsonError::Wrong),
    }
}

#[tactic(auto, using(vx_json::proofs::Items::item_rules), unfolding(vx_json::specs::Values::all))]
fn read_kinds(alloc: Global, value: &Value) -> Result<Vec<LayoutEncoding>, JsonError>
    ensures { values.Gives (λ v. v.items) result (all layout_kind_of (view value.now)) }
{
    let items = read_items(value)?;
    let mut kinds = Vec::with_capacity(alloc, items.len())?;
    for item in items {
        kinds.push(read_kind(item)?)?;
    }
    Ok(kinds)
}

/// How deep a tree may be.
#[tactic(auto, unfolding(vx_json::specs::Values::whole_below))]
fn read_depth(value: &Value) -> Result<u64, JsonError>
    ensures depth { values.Gives (λ n. n) result (whole_below 1025 (view value.now)) }
    ensures shallow { IfOk result (λ n. n ≤ 1024) }
{
    let number = read_u64(value)?;
    if number > 1024 {
        return Err(JsonError::Wrong);
    }
    Ok(number)
}

#[tactic(auto, using(crate::proofs::JobSteps::at_rules), unfolding(crate::specs::TreeText::registered_in, crate::specs::JobParts::or_default))]
fn registered_in(
    alloc: Global,
    members: &Map<String, Value>,
) -> Result<Vec<LayoutEncoding>, JobError>
    ensures { Gives (λ v. v.items) result (registered_in (members_view members.now.entries)) }
{
    let Some(value) = member(members, "registered") else {
        return Ok(Vec::from_slice(alloc, &LayoutEncoding::ALL)?);
    };
    at(Key::Registered, read_kinds(alloc, value))
}

#[tactic(auto, using(crate::proofs::JobSteps::at_rules), unfolding(crate::specs::TreeText::allow_unknown_in, crate::specs::JobParts::or_default))]
fn allow_unknown_in(members: &Map<String, Value>) -> Result<bool, JobError>
    ensures { Gives (λ b. b) result (allow_unknown_in (members_view members.now.entries)) }
{
    let Some(value) = member(members, "allow_unknown") else {
        return Ok(false);
    };
    at(Key::AllowUnknown, read_flag(value))
}

#[tactic(auto, using(crate::proofs::JobSteps::at_rules), unfolding(crate::specs::TreeText::depth_in, crate::specs::JobParts::or_default))]
fn depth_in(members: &Map<String, Value>) -> Result<u64, JobError>
    ensures depth { Gives (λ n. n) result (depth_in (members_view members.now.entries)) }
    ensures shallow { IfOk result (λ n. n ≤ 1024) }
{
    let Some(value) = member(members, "depth") else {
        return Ok(64);
    };
    at(Key::Depth, read_depth(value))
}

#[tactic(auto, using(crate::proofs::JobSteps::at_rules), unfolding(crate::specs::TreeText::nodes_in, crate::specs::JobParts::or_default))]
fn nodes_in(members: &Map<String, Value>) -> Result<u64, JobError>
    ensures { Gives (λ n. n) result (nodes_in (members_view members.now.entries)) }
{
    let Some(value) = member(members, "nodes") else {
        return Ok(1_000_000);
    };
    at(Key::Nodes, read_u64(value))
}

#[tactic(auto, unfolding(crate::specs::TreeText::tree_options_in))]
pub(crate) fn read_tree_options(
    alloc: Global,
    members: &Map<String, Value>,
) -> Result<TreeOptions, JobError>
    ensures options { Gives tree_options_view result (tree_options_in (members_view members.now.entries)) }
    ensures shallow { IfOk result (λ o. o.limits.depth ≤ 1024) }
{
    Ok(TreeOptions {
        encodings: encodings_in(alloc, members)?,
        registered: registered_in(alloc, members)?,
        allow_unknown: allow_unknown_in(members)?,
        limits: Limits {
            depth: depth_in(members)?,
            nodes: nodes_in(members)?,
        },
    })
}

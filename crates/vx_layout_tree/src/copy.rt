//! Equal copies of layouts and of children.

ghost use Rattle.std.specs.Prelude.{◌≡◌, map, length, IfOk};
ghost use Rattle.vx_layout_tree.specs.Copies.{SameChildren, SameNodes, SameTable};
ghost use Rattle.vx_layout_tree.specs.FlatView.{flat_lay};
ghost use Rattle.vx_layout_tree.specs.LayoutView.{layout_data};

use crate::children::{LayoutChildren, ViewedChildren};
use crate::flat::FlatLayout;
use crate::layout::Layout;
use crate::rebuilt::same_segments;
use crate::zoned::{UnreadZones, ZoneTable, ZonedLayout};
use std::alloc::AllocError;
use vx_model::Blob;

impl Layout {
    /// An equal layout.
    #[cycle(copying)]
    #[tactic(auto, using(crate::proofs::CopySteps::copy_rules), unfolding(crate::specs::LayoutView::layout_data))]
    pub fn to_layout(&self) -> Result<Layout, AllocError>
        ensures { IfOk result (λ l. layout_data l ≡ layout_data self.now) }
    {
        match self {
            Layout::Flat(flat) => Ok(Layout::Flat(flat.copy()?)),
            Layout::Chunked(inner) => {
                Ok(Layout::Chunked(inner.with_same(inner.children.to_arc()?)?))
            }
            Layout::Struct(inner) => {
                Ok(Layout::Struct(inner.with_same(inner.children.to_arc()?)?))
            }
            Layout::List(inner) => Ok(Layout::List(inner.with_same(copies(&inner.children)?)?)),
            Layout::Dict(inner) => Ok(Layout::Dict(inner.with_same(copies(&inner.children)?)?)),
            Layout::Zoned(inner) => Ok(Layout::Zoned(inner.copy()?)),
            Layout::LegacyStats(inner) => {
                Ok(Layout::LegacyStats(inner.with_same(copies(&inner.children)?)?))
            }
            Layout::Foreign(inner) => {
                Ok(Layout::Foreign(inner.with_same(copies(&inner.children)?)?))
            }
        }
    }
}

impl LayoutChildren {
    /// Equal children: nodes stay nodes.
    #[cycle(copying)]
    pub fn to_arc(&self) -> Result<LayoutChildren, AllocError>
        ensures { IfOk result (λ copy. SameChildren copy self.now) }
    {
        match self {
            LayoutChildren::Owned(layouts) => Ok(LayoutChildren::Owned(copies(layouts)?)),
            LayoutChildren::Viewed(viewed) => Ok(LayoutChildren::Viewed(viewed.copy()?)),
        }
    }
}

impl ZonedLayout {
    #[cycle(copying)]
    #[tactic(auto, using(crate::proofs::CopySteps::zoned_rules))]
    fn copy(&self) -> Result<ZonedLayout, AllocError>
        ensures { IfOk result (λ copy. copy ≡ self.now) }
    {
        let segment_ids = same_segments(&self.segment_ids)?;
        let aggregates = Vec::from_slice(*self.aggregates.allocator(), &self.aggregates)?;
        let children = copies(&self.children)?;
        let dtype = self.dtype.clone()?;
        let table = copy_table(&self.table)?;
        Ok(ZonedLayout {
            row_count: self.row_count,
            dtype,
            segment_ids,
            children,
            zone_len: self.zone_len,
            aggregates,
            table,
        })
    }
}

#[cycle(copying)]
fn copy_table(table: &ZoneTable) -> Result<ZoneTable, AllocError>
    ensures { IfOk result (λ copy. SameTable copy table.now) }
{
    match table {
        ZoneTable::Read => Ok(ZoneTable::Read),
        ZoneTable::Unread(unread) => {
            let metadata = unread.metadata.clone()?;
            let zones = unread.zones.to_arc()?;
            Ok(ZoneTable::Unread(UnreadZones { metadata, zones }))
        }
    }
}

#[cycle(copying)]
#[tactic(auto, using(crate::proofs::CopySteps::push_rules))]
fn copies(layouts: &Vec<Layout>) -> Result<Vec<Layout>, AllocError>
    ensures { IfOk result (λ v. map layout_data v.items ≡ map layout_data layouts.now.items) }
{
    let mut copies = Vec::with_capacity(*layouts.allocator(), layouts.len())?;
    for layout in layouts {
        copies.push(layout.to_layout()?)?;
    }
    Ok(copies)
}

impl ViewedChildren {
    fn copy(&self) -> Result<ViewedChildren, AllocError>
        ensures { IfOk result (λ copy. SameNodes copy self.now) }
    {
        let nodes = self.nodes.clone()?;
        let scope = self.scope.clone()?;
        Ok(ViewedChildren { scope, nodes })
    }
}

impl FlatLayout {
    fn copy(&self) -> Result<FlatLayout, AllocError>
        ensures { IfOk result (λ copy. flat_lay copy ≡ flat_lay self.now) }
    {
        let array_tree = copy_tree(&self.array_tree)?;
        let ctx = self.ctx.clone()?;
        let dtype = self.dtype.clone()?;
        Ok(FlatLayout {
            row_count: self.row_count,
            dtype,
            segment_id: self.segment_id,
            ctx,
            array_tree,
        })
    }
}

fn copy_tree(tree: &Option<Blob>) -> Result<Option<Blob>, AllocError>
    ensures { IfOk result (λ copy. copy ≡ tree.now) }
{
    match tree {
        Some(bytes) => Ok(Some(bytes.clone()?)),
        None => Ok(None),
    }
}

//! The same layout, whose segments have other numbers.

ghost use Rattle.std.specs.Prelude.{◌≡◌, ◌+◌, ◌≤◌, length, take, drop, map, IfOk, OnOk};
ghost use Rattle.vx_model.specs.Words.{total_by};
ghost use Rattle.vx_model.specs.TyView.{ty};
ghost use Rattle.vx_layout_spec.specs.LayoutTree.{chunked_kind, struct_kind, lays_in, lays_of, row_count, layout_type, segments_of};
ghost use Rattle.vx_layout_segments.specs.Segments.{segments_in, all_segments};
ghost use Rattle.vx_layout_segments.specs.InTurn.{in_turn, each_in_turn};
ghost use Rattle.vx_session.specs.Kinds.{struct_types};
ghost use Rattle.vx_layout_tree.specs.declared.children.LayoutChildren.TheVariants as children_variants;
ghost use Rattle.vx_layout_tree.specs.FlatView.{flat_lay};
ghost use Rattle.vx_layout_tree.specs.KidsView.{owned_kids};
ghost use Rattle.vx_layout_tree.specs.KindView.{headed};
ghost use Rattle.vx_layout_tree.specs.LayoutView.{layout_data, number};

use std::alloc::{AllocError, Global};
use vx_layout_tree::{
    FlatLayout, KindParts, KindRef, Layout, LayoutChildren, LayoutHead, LayoutParts,
    layout_children,
};
use vx_model::SegmentId;

/// The layout, whose segment k in pre-order has the number at place k.
///
/// Layouts of kinds that no write makes, children that stay in their bytes, and a layout of more segments than there are numbers have
/// no such copy: of them it answers that memory is wanting.
pub fn renumbered(
    alloc: Global,
    layout: &Layout,
    numbers: &[SegmentId],
) -> Result<Layout, AllocError>
    ensures { IfOk result (λ l. layout_data l ≡ in_turn (map number numbers.now) (layout_data layout.now)) }
{
    let mut next = 0;
    numbered(alloc, layout, numbers, &mut next)
}

/// The layout with the numbers from the next one on. After an error any is the next.
#[cycle(renumbering)]
#[tactic(auto, using(crate::proofs::Parts::part_rules))]
fn numbered(
    alloc: Global,
    layout: &Layout,
    numbers: &[SegmentId],
    next: &mut usize,
) -> Result<Layout, AllocError>
    ensures same { IfOk result (λ l. layout_data l ≡ in_turn (drop next.old (map number numbers.now)) (layout_data layout.now)) }
    ensures next { OnOk result (next.new ≡ next.old + length (segments_in (layout_data layout.now))) }
{
    match layout.by_kind() {
        KindRef::Flat(flat) => flat_of(layout, flat, numbers, next),
        KindRef::Chunked(LayoutChildren::Owned(children)) => {
            let head = head_of(alloc, layout, numbers, next)?;
            let children = all(alloc, children, numbers, next)?;
            Ok(chunked_of(alloc, head, children))
        }
        KindRef::Struct(LayoutChildren::Owned(children)) => {
            let head = head_of(alloc, layout, numbers, next)?;
            let children = all(alloc, children, numbers, next)?;
            Ok(struct_of(alloc, head, children))
        }
        KindRef::List(children) => {
            let head = head_of(alloc, layout, numbers, next)?;
            let children = all(alloc, children, numbers, next)?;
            if children.len() != 2 + usize::from(head.dtype.is_nullable()) {
                drop_layouts(children);
                return Err(AllocError);
            }
            let parts = KindParts::List(head, children);
            Ok(Layout::from_parts(alloc, parts))
        }
        KindRef::Dict(children, all_values) => {
            let head = head_of(alloc, layout, numbers, next)?;
            let children = all(alloc, children, numbers, next)?;
            let parts = KindParts::Dict(head, children, all_values);
            Ok(Layout::from_parts(alloc, parts))
        }
        KindRef::Zoned(children, zone_len, aggregates) => {
            let aggregates = Vec::from_slice(alloc, aggregates)?;
            let head = head_of(alloc, layout, numbers, next)?;
            let children = all(alloc, children, numbers, next)?;
            let parts = KindParts::Zoned(head, children, zone_len, aggregates);
            Ok(Layout::from_parts(alloc, parts))
        }
        KindRef::Chunked(LayoutChildren::Viewed(_)) => Err(AllocError),
        KindRef::Struct(LayoutChildren::Viewed(_)) => Err(AllocError),
        KindRef::Unread(..) | KindRef::LegacyStats(..) | KindRef::Foreign(..) => Err(AllocError),
    }
}

#[cycle(renumbering)]
#[tactic(auto, using(crate::proofs::Parts::all_rules))]
fn all(
    alloc: Global,
    layouts: &[Layout],
    numbers: &[SegmentId],
    next: &mut usize,
) -> Result<Vec<Layout>, AllocError>
    ensures same { IfOk result (λ v. map layout_data v.items ≡ lays_in (each_in_turn (drop next.old (map number numbers.now)) (lays_of (map layout_data layouts.now)))) }
    ensures next { OnOk result (next.new ≡ next.old + length (all_segments (lays_of (map layout_data layouts.now)))) }
{
    let mut copies = Vec::with_capacity(alloc, layouts.len())?;
    for layout in layouts {
        match numbered(alloc, layout, numbers, next) {
            Ok(copy) => copies.push_reserved(copy),
            Err(error) => {
                drop_layouts(copies);
                return Err(error);
            }
        }
    }
    Ok(copies)
}

fn drop_layouts(mut layouts: Vec<Layout>) {
    while let Some(layout) = layouts.pop() {
        drop(layout);
    }
    layouts.destroy_empty();
}

fn parts_of(head: LayoutHead, children: Vec<Layout>) -> LayoutParts
    ensures { result ≡ record { dtype = head.dtype; row_count = head.row_count; segment_ids = head.segment_ids; children = children_variants.Owned children } }
{
    let LayoutHead {
        row_count,
        dtype,
        segment_ids,
    } = head;
    LayoutParts::new(dtype, row_count, segment_ids, layout_children(children))
}

fn chunked_of(alloc: Global, head: LayoutHead, children: Vec<Layout>) -> Layout
    requires { total_by row_count (map layout_data children.items) ≡ head.row_count }
    ensures { layout_data result ≡ headed chunked_kind head (map layout_data children.items) }
{
    let parts = parts_of(head, children);
    Layout::from_parts(alloc, KindParts::Chunked(parts))
}

fn struct_of(alloc: Global, head: LayoutHead, children: Vec<Layout>) -> Layout
    requires { length (owned_kids (map layout_data children.items)) ≡ length (struct_types (ty head.dtype)) }
    ensures { layout_data result ≡ headed struct_kind head (map layout_data children.items) }
{
    let parts = parts_of(head, children);
    Layout::from_parts(alloc, KindParts::Struct(parts))
}

#[tactic(auto, using(crate::proofs::Parts::flat_rules), unfolding(vx_layout_tree::specs::LayoutView::layout_data))]
fn flat_of(
    layout: &Layout,
    flat: &FlatLayout,
    numbers: &[SegmentId],
    next: &mut usize,
) -> Result<Layout, AllocError>
    requires flat { layout_data layout.now ≡ flat_lay flat.now }
    ensures same { IfOk result (λ l. layout_data l ≡ in_turn (drop next.old (map number numbers.now)) (layout_data layout.now)) }
    ensures next { OnOk result (next.new ≡ next.old + 1) }
{
    let dtype = layout.dtype().clone()?;
    let ctx = flat.array_ctx().clone()?;
    let array_tree = match flat.array_tree() {
        Some(tree) => Some(tree.clone()?),
        None => None,
    };
    let Some(segment_id) = numbers.get(*next) else {
        return Err(AllocError);
    };
    *next += 1;
    Ok(Layout::Flat(FlatLayout::new_with_metadata(
        layout.row_count(),
        dtype,
        *segment_id,
        ctx,
        array_tree,
    )))
}

/// Rows and type, and as many numbers as there are segments.
#[tactic(auto, using(crate::proofs::Parts::head_rules))]
fn head_of(
    alloc: Global,
    layout: &Layout,
    numbers: &[SegmentId],
    next: &mut usize,
) -> Result<LayoutHead, AllocError>
    ensures rows { IfOk result (λ h. h.row_count ≡ row_count (layout_data layout.now)) }
    ensures dtype { IfOk result (λ h. ty h.dtype ≡ layout_type (layout_data layout.now)) }
    ensures segments { IfOk result (λ h. map number h.segment_ids.items ≡ take (length (segments_of (layout_data layout.now))) (drop next.old (map number numbers.now))) }
    ensures next { OnOk result (next.new ≡ next.old + length (segments_of (layout_data layout.now))) }
{
    let has = layout.segment_ids().len();
    if numbers.len() < *next || numbers.len() - *next < has {
        return Err(AllocError);
    }
    let end = *next + has;
    let segment_ids = Vec::from_slice(alloc, &numbers[*next..end])?;
    *next = end;
    Ok(LayoutHead {
        row_count: layout.row_count(),
        dtype: layout.dtype().clone()?,
        segment_ids,
    })
}

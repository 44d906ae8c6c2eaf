//! Paths, each at its segment's number, are put into the order of a layout's segments.

ghost use Rattle.std.specs.Prelude.{◌≡◌, ◌++◌, [], ◌∷◌, map, IfOk, OnOk};
ghost use Rattle.vx_layout_spec.specs.LayoutTree.{lays_of, children_of};
ghost use Rattle.vx_layout_segments.specs.Segments.{segments_in, all_segments};
ghost use Rattle.vx_layout_tree.specs.LayoutView.{layout_data, number};
ghost use Rattle.vx_layout_paths.specs.Taking.{path_at, Apart, Took, HasRoom};

use std::alloc::AllocError;
use std::mem;
use vx_layout_tree::{KindRef, Layout, LayoutChildren};
use vx_model::SegmentId;
use vx_path::owned::Path;

/// Behind those in `ordered` the paths of the layout's segments, in pre-order: of segment n that at place n, past the last the empty
/// one. Takes no memory: there is room in `ordered`.
///
/// Children that stay in their bytes would have to be built: of a layout with such it answers that memory is wanting.
pub fn paths_in_order(
    layout: &Layout,
    mut paths: Vec<Path>,
    mut ordered: Vec<Path>,
) -> Result<Vec<Path>, AllocError>
    requires apart { Apart (segments_in (layout_data layout.now)) }
    requires room { HasRoom (segments_in (layout_data layout.now)) ordered }
    ensures { IfOk result (λ v. v.items ≡ ordered.items ++ map (path_at paths.items) (segments_in (layout_data layout.now))) }
{
    take_paths(layout, &mut paths, &mut ordered)?;
    Ok(ordered)
}

/// Takes the paths of the layout's segments out of the list, in pre-order. After an error some are taken.
#[cycle(taking)]
fn take_paths(
    layout: &Layout,
    paths: &mut [Path],
    ordered: &mut Vec<Path>,
) -> Result<(), AllocError>
    requires room { HasRoom (segments_in (layout_data layout.now)) ordered.old }
    ensures { OnOk result (Took (segments_in (layout_data layout.now)) paths.old paths.new ordered.old ordered.new) }
{
    match layout.by_kind() {
        KindRef::Flat(_) => take_below(layout, &[], paths, ordered),
        KindRef::Chunked(LayoutChildren::Owned(children)) => {
            take_below(layout, children, paths, ordered)
        }
        KindRef::Struct(LayoutChildren::Owned(children)) => {
            take_below(layout, children, paths, ordered)
        }
        KindRef::List(children) => take_below(layout, children, paths, ordered),
        KindRef::Dict(children, _) => take_below(layout, children, paths, ordered),
        KindRef::Zoned(children, _, _) => take_below(layout, children, paths, ordered),
        KindRef::LegacyStats(children, _, _) => take_below(layout, children, paths, ordered),
        KindRef::Foreign(children, _, _) => take_below(layout, children, paths, ordered),
        KindRef::Chunked(LayoutChildren::Viewed(_)) => Err(AllocError),
        KindRef::Struct(LayoutChildren::Viewed(_)) => Err(AllocError),
        KindRef::Unread(..) => Err(AllocError),
    }
}

/// The same of a layout with these children.
#[cycle(taking)]
fn take_below(
    layout: &Layout,
    children: &[Layout],
    paths: &mut [Path],
    ordered: &mut Vec<Path>,
) -> Result<(), AllocError>
    requires room { HasRoom (segments_in (layout_data layout.now)) ordered.old }
    requires children { children_of (layout_data layout.now) ≡ map layout_data children.now }
    ensures { OnOk result (Took (segments_in (layout_data layout.now)) paths.old paths.new ordered.old ordered.new) }
{
    take_own(layout.segment_ids(), paths, ordered)?;
    take_all(children, paths, ordered)
}

#[cycle(taking)]
fn take_all(
    layouts: &[Layout],
    paths: &mut [Path],
    ordered: &mut Vec<Path>,
) -> Result<(), AllocError>
    requires room { HasRoom (all_segments (lays_of (map layout_data layouts.now))) ordered.old }
    ensures { OnOk result (Took (all_segments (lays_of (map layout_data layouts.now))) paths.old paths.new ordered.old ordered.new) }
{
    for layout in layouts {
        take_paths(layout, paths, ordered)?;
    }
    Ok(())
}

/// Takes the paths of a layout's own segments.
fn take_own(
    ids: &[SegmentId],
    paths: &mut [Path],
    ordered: &mut Vec<Path>,
) -> Result<(), AllocError>
    requires room { HasRoom (map number ids.now) ordered.old }
    ensures { OnOk result (Took (map number ids.now) paths.old paths.new ordered.old ordered.new) }
{
    for id in ids {
        take_path(*id, paths, ordered)?;
    }
    Ok(())
}

/// Takes the path at the segment's number, and leaves an empty one.
fn take_path(id: SegmentId, paths: &mut [Path], ordered: &mut Vec<Path>) -> Result<(), AllocError>
    requires room { HasRoom (id.0 ∷ []) ordered.old }
    ensures { OnOk result (Took (id.0 ∷ []) paths.old paths.new ordered.old ordered.new) }
{
    let place = id.0 as usize;
    // An empty path takes no memory.
    let mut path = Path::from_slice(*ordered.allocator(), &[])?;
    if place < paths.len() {
        mem::swap(&mut paths[place], &mut path);
    }
    ordered.push_reserved(path);
    Ok(())
}

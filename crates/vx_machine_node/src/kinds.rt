//! Flat and chunked nodes, and those that split structs and lists.

ghost use Rattle.std.specs.Prelude.{◌≡◌, IsTrue};
ghost use Rattle.std.specs.Arc.{arc_value};
ghost use Rattle.std.specs.Coded.{Coded-set};
ghost use Rattle.vx_model.specs.Ty.{is_struct, is_list};
ghost use Rattle.vx_model.specs.TyView.{ty};
ghost use Rattle.vx_split.specs.ListState.{ty_coded};

use std::sync::Arc;
use vx_model::DType;
use vx_split::{ColumnSplit, ListSplit};
use vx_strategy::{ChildStrategy, FlatLayoutStrategy};

/// A node that stores its one chunk as one segment.
#[derive(Drop)]
pub struct FlatNode {
    pub options: FlatLayoutStrategy,
    pub dtype: Arc<DType>,
}

/// A node that hands each chunk to a child of its own.
#[derive(Drop)]
pub struct ChunkedNode {
    pub dtype: Arc<DType>,
    pub child: ChildStrategy,
    /// A nullable struct stands above.
    pub marked: bool,
}

/// A node that splits structs into columns.
#[derive(Drop)]
pub struct ColumnsNode {
    pub dtype: Arc<DType>,
    pub split: ColumnSplit,
    ghost same: { split ≡ ty (arc_value dtype) },
    ghost structs: { IsTrue (is_struct (ty (arc_value dtype))) },
}

/// A node that splits lists into columns.
#[derive(Drop)]
pub struct ListsNode {
    pub dtype: Arc<DType>,
    pub split: ListSplit,
    ghost same: { split.typed ≡ ty (arc_value dtype) } by { Coded-set ty_coded split.typed (ty (arc_value dtype)) },
    ghost lists: { IsTrue (is_list (ty (arc_value dtype))) },
}

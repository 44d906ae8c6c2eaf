//! Nodes that regroup.

ghost use Rattle.std.specs.Prelude.{◌≡◌, IsTrue, IsFalse};
ghost use Rattle.std.specs.Arc.{arc_value};
ghost use Rattle.std.specs.Coded.{Coded-set, coded_list, coded_ℕ};
ghost use Rattle.vx_model.specs.TyView.{ty};
ghost use Rattle.vx_machine_node.specs.Regrouped.{is_of, misfit_in, sizes_in, is_idle, rows_counted};

use crate::item::Item;
use std::collections::VecDeque;
use std::sync::Arc;
use vx_model::DType;
use vx_regroup::Regroup;
use vx_sink::BufferedBytesReservation;

/// A node that regroups its stream. The newest chunk is acted on once the next one comes, or the end.
pub struct GroupedNode {
    pub dtype: Arc<DType>,
    /// With what it holds besides the newest chunk.
    pub rule: Regroup,
    pub newest: Option<Item>,
    /// Of all chunks so far.
    pub rows: u64,
    /// Of a buffer: one for each chunk that it holds, in their order, the newest one's last.
    pub reserved: VecDeque<BufferedBytesReservation>,
    ghost typed: { IsTrue (is_of rule (ty (arc_value dtype))) },
    ghost fits: { IsFalse (misfit_in rule newest) },
    ghost idle: { IsTrue (is_idle rule newest) },
    ghost weighed: { reserved.items ≡ sizes_in rule newest } by { Coded-set (coded_list coded_ℕ) reserved.items (sizes_in rule newest) },
    ghost summed: { rows_counted rule newest rows ≡ rows },
}

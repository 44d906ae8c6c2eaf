//! Where the batches' paths come from.

ghost use Rattle.std.specs.Prelude.{◌≡◌};
ghost use Rattle.vx_machine_ids.specs.Stock.{none, ids_stock};
ghost use Rattle.vx_machine_ids.specs.Balance.{Owned, Moved};
ghost use Rattle.vx_machine.specs.Names.{names_stock};

use std::collections::VecDeque;
use vx_machine_ids::{give_up_id, give_up_pointer};
use vx_order::Order;
use vx_sequence::{SequenceId, SequencePointer};

/// Where the batches' paths come from.
pub(crate) enum Names {
    /// A pointer, which moves on.
    Onward(SequencePointer),
    /// These ids, in order.
    Handed(VecDeque<SequenceId>),
}

pub(crate) fn give_up_names<O: Order>(order: &mut O, names: Names)
    requires { Owned (O.active order.old) (names_stock names) }
    ensures moved { Moved (O.active order.old) (O.active order.new) (names_stock names) none }
    ensures outlet { O.outlet order.new ≡ O.outlet order.old }
    ensures sink { O.sink order.new ≡ O.sink order.old }
{
    match names {
        Names::Onward(pointer) => give_up_pointer(order, pointer),
        Names::Handed(ids) => give_up_ids(order, ids),
    }
}

pub(crate) fn give_up_ids<O: Order>(order: &mut O, mut ids: VecDeque<SequenceId>)
    requires { Owned (O.active order.old) (ids_stock ids.items) }
    ensures moved { Moved (O.active order.old) (O.active order.new) (ids_stock ids.items) none }
    ensures outlet { O.outlet order.new ≡ O.outlet order.old }
    ensures sink { O.sink order.new ≡ O.sink order.old }
{
    'ids: while let Some(id) = ids.pop_back() {
        give_up_id(order, id);
    }
    ids.destroy_empty();
}

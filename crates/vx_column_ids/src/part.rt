//! A column's part.

ghost use Rattle.vx_machine_ids.specs.Balance.{Owned, Exact};
ghost use Rattle.vx_part_laws.specs.Parts.{stock_of};

use crate::ids::{give_up_ids, give_up_pointer};
use vx_sequence::{SequenceId, SequencePointer, Universe};

/// A column's universe, and all that is active in it: the ids of its batches, in order, and the pointer behind them.
///
/// It must be spent, by `give_up`, or taken apart.
pub struct ColumnPart {
    pub universe: Universe,
    pub ids: Vec<SequenceId>,
    pub eof: SequencePointer,
    pub ghost owned: { Owned universe (stock_of ids.items eof) },
    pub ghost exact: { Exact universe (stock_of ids.items eof) },
}

impl ColumnPart {
    /// Gives up the ids and the pointer.
    pub fn give_up(self) {
        let ColumnPart {
            mut universe,
            ids,
            eof,
        } = self;
        give_up_ids(&mut universe, ids);
        give_up_pointer(&mut universe, eof);
    }
}

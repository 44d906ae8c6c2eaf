//! The only child of a node that regroups, before it is started.

ghost use Rattle.std.specs.Prelude.{◌≡◌, ◌+◌, ◌≤◌, vec_len, vec_capacity, IfOk, OnOk};
ghost use Rattle.std.specs.Arc.{arc_value};
ghost use Rattle.vx_path.specs.Path.{under};
ghost use Rattle.vx_model.specs.TyView.{ty};

use crate::start::next_name;
use std::alloc::{AllocError, Global};
use std::sync::Arc;
use vx_machine_task::Task;
use vx_model::DType;
use vx_path::owned::Path;

/// Room for the only child, its name, and its type.
pub fn child_parts(
    alloc: Global,
    name: &Path,
    dtype: &Arc<DType>,
    kids: &mut Vec<Task>,
) -> Result<(Path, Arc<DType>), AllocError>
    ensures name { IfOk result (λ r. r.0 ≡ under name.now (vec_len kids.old)) }
    ensures dtype { IfOk result (λ r. ty (arc_value r.1) ≡ ty (arc_value dtype.now)) }
    ensures kids { kids.new.items ≡ kids.old.items }
    ensures room { OnOk result (vec_len kids.new + 1 ≤ vec_capacity kids.new) }
{
    let copy = Arc::try_clone(dtype)?;
    match next_name(alloc, name, kids) {
        Ok(name) => Ok((name, copy)),
        Err(error) => {
            drop(copy);
            Err(error)
        }
    }
}

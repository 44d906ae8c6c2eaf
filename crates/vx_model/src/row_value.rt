ghost use Rattle.std.specs.Prelude.{◌≡◌, IfOk, map};
ghost use Rattle.vx_model.specs.TreeView.{val};

use crate::blob::Blob;
use crate::text::Text;
use std::alloc::AllocError;

/// A row as a reader sees it: an invalid list or struct is `Null`.
#[derive(Debug, Drop)]
pub enum Value {
    Null,
    Bool(bool),
    Int(i128),
    Utf8(Text),
    Binary(Blob),
    List(Vec<Value>),
    Struct(Vec<Value>),
}

impl Clone for Value {
    ghost is_clone = { λ v copy. val copy ≡ val v };

    fn clone(&self) -> Result<Value, AllocError> {
        copy(self)
    }
}

#[cycle(copy)]
#[tactic(auto, using(crate::proofs::CellViews::copy_rules))]
fn copy(value: &Value) -> Result<Value, AllocError>
    ensures { IfOk result (λ v. val v ≡ val value.now) }
{
    match value {
        Value::Null => Ok(Value::Null),
        Value::Bool(b) => Ok(Value::Bool(*b)),
        Value::Int(n) => Ok(Value::Int(*n)),
        Value::Utf8(text) => Ok(Value::Utf8(text.clone()?)),
        Value::Binary(bytes) => Ok(Value::Binary(bytes.clone()?)),
        Value::List(values) => Ok(Value::List(copy_all(values)?)),
        Value::Struct(values) => Ok(Value::Struct(copy_all(values)?)),
    }
}

#[cycle(copy)]
#[tactic(auto, using(crate::proofs::CellViews::copy_rules))]
fn copy_all(values: &Vec<Value>) -> Result<Vec<Value>, AllocError>
    ensures { IfOk result (λ v. map val v.items ≡ map val values.now.items) }
{
    let mut copies = Vec::with_capacity(*values.allocator(), values.len())?;
    for value in values {
        copies.push(copy(value)?)?;
    }
    Ok(copies)
}

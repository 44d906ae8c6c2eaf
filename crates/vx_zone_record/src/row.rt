//! What a column's rows can be held as.

ghost use Rattle.std.specs.Prelude.{◌≡◌};
ghost use Rattle.vx_zone_record.specs.Scalars.{scalar_value, shallow};

use crate::scalar::Scalar;
use vx_model::{Cell, Value};
use vx_typed::Lent;

/// A row of a column. A cell is read as a reader sees it.
pub trait Row {
    ghost use Rattle.vx_model.specs.ValueData.{ValueData};

    // the value that a reader sees
    ghost seen: { Self → ValueData };

    /// The row without what is below a list or a struct. Copies nothing.
    fn scalar(&self) -> Scalar<'_>
        ensures { scalar_value result ≡ shallow (seen self.now) };
}

impl Row for Value {
    ghost use Rattle.vx_model.specs.TreeView.{val};

    ghost seen = { val };

    fn scalar(&self) -> Scalar<'_> {
        match self {
            Value::Null => Scalar::Null,
            Value::Bool(b) => Scalar::Bool(*b),
            Value::Int(n) => Scalar::Int(*n),
            Value::Utf8(text) => Scalar::Utf8(text.as_str()),
            Value::Binary(bytes) => Scalar::Binary(bytes.as_slice()),
            Value::List(_) | Value::Struct(_) => Scalar::Nested,
        }
    }
}

impl Row for Cell {
    ghost use Rattle.vx_model.specs.ValueData.{value};
    ghost use Rattle.vx_model.specs.TreeView.{tree};

    ghost seen = { λ c. value (tree c) };

    fn scalar(&self) -> Scalar<'_> {
        match self {
            Cell::Null | Cell::List(false, _) | Cell::Struct(false, _) => Scalar::Null,
            Cell::Bool(b) => Scalar::Bool(*b),
            Cell::Int(n) => Scalar::Int(*n),
            Cell::Utf8(text) => Scalar::Utf8(text.as_str()),
            Cell::Binary(bytes) => Scalar::Binary(bytes.as_slice()),
            Cell::List(true, _) | Cell::Struct(true, _) => Scalar::Nested,
        }
    }
}

impl Row for Lent<'_> {
    ghost use Rattle.vx_model.specs.ValueData.{value};
    ghost use Rattle.vx_typed.specs.Lent.{lent_cell};

    ghost seen = { λ c. value (lent_cell c) };

    fn scalar(&self) -> Scalar<'_> {
        match self {
            Lent::Null | Lent::List(false, _) | Lent::Struct(false, _) => Scalar::Null,
            Lent::Bool(b) => Scalar::Bool(*b),
            Lent::Int(n) => Scalar::Int(*n),
            Lent::Utf8(text) => Scalar::Utf8(text),
            Lent::Binary(bytes) => Scalar::Binary(bytes),
            Lent::List(true, _) | Lent::Struct(true, _) => Scalar::Nested,
        }
    }
}

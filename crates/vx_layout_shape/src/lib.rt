//! What the type of a layout says of its children.
#![tactic(auto)]

mod shape;

pub use shape::{
    field_count, fields_in, integer_type, is_primitive, struct_children, validity_count,
};

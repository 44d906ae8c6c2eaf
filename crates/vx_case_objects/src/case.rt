//! Cases of a type.

use crate::parts::dtype_in;
use serde_json::Value;
use std::alloc::Global;
use vx_case_lines::cut;
use vx_model::DType;

/// An object, and the type that it says.
#[derive(Drop)]
pub struct Typed {
    pub object: Value,
    pub dtype: DType,
}

/// A case whose object says its type (`schema`).
#[derive(Clone, Copy)]
pub struct Case<'a> {
    pub name: &'a str,
    pub word: &'a str,
    pub given: &'a str,
    pub object: &'a Value,
    pub dtype: &'a DType,
}

impl<'a> Case<'a> {
    /// Of the case of this name, which asks these words of the object.
    pub fn new(name: &'a str, words: &'a str, typed: &'a Typed) -> Case<'a> {
        let (word, given) = cut(words);
        Case {
            name,
            word,
            given,
            object: &typed.object,
            dtype: &typed.dtype,
        }
    }
}

/// The object that the text is, and the type that it says.
pub fn read_typed(alloc: Global, text: &str) -> anyhow::Result<Typed> {
    let object = Value::from_str(alloc, text)?;
    match dtype_in(alloc, &object, "schema") {
        Ok(dtype) => Ok(Typed { object, dtype }),
        Err(error) => {
            drop(object);
            Err(error)
        }
    }
}

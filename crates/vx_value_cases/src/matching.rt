//! The fields of a struct layout that masks mean.

use crate::fields::{mask, push_mask};
use std::alloc::{AllocError, Global};
use vx_case_lines::Answer;
use vx_field_path::FieldMask;
use vx_layout_fields::LayoutFields;
use vx_layout_shape::fields_in;
use vx_layout_tree::{ChunkedLayout, Layout, LayoutError, StructLayout, layout_children};
use vx_model::DType;

pub(crate) fn tell(alloc: Global, answer: &mut Answer, dtype: &DType, given: &str) {
    match struct_of(alloc, dtype) {
        Ok(layout) => {
            tell_matched(alloc, answer, &layout, given);
            drop(layout);
        }
        Err(error) => answer.push(error),
    }
}

/// Of the type, without rows.
fn no_rows(alloc: Global, dtype: &DType) -> Result<Layout, LayoutError> {
    let dtype = dtype.clone()?;
    let children = layout_children(Vec::new(alloc));
    Ok(ChunkedLayout::new(0, dtype, children)?.into_layout())
}

fn push_columns(
    alloc: Global,
    columns: &mut Vec<Layout>,
    dtype: &DType,
) -> Result<(), LayoutError> {
    for field in fields_in(dtype) {
        columns.push(no_rows(alloc, &field.dtype)?)?;
    }
    Ok(())
}

fn columns(alloc: Global, dtype: &DType) -> Result<Vec<Layout>, LayoutError> {
    let mut columns = Vec::new(alloc);
    match push_columns(alloc, &mut columns, dtype) {
        Ok(()) => Ok(columns),
        Err(error) => {
            drop(columns);
            Err(error)
        }
    }
}

fn struct_of(alloc: Global, dtype: &DType) -> Result<StructLayout, LayoutError> {
    let columns = columns(alloc, dtype)?;
    match dtype.clone() {
        Ok(dtype) => StructLayout::new(0, dtype, columns),
        Err(error) => {
            drop(columns);
            Err(LayoutError::from(error))
        }
    }
}

fn masks(alloc: Global, text: &str) -> Result<Vec<FieldMask>, AllocError> {
    let mut masks = Vec::new(alloc);
    if text.is_empty() {
        return Ok(masks);
    }
    for part in text.split(" / ") {
        masks.push(mask(alloc, part)?)?;
    }
    Ok(masks)
}

/// The number of each field with the mask as seen from it, and `-` for none.
fn tell_matched<L: LayoutFields>(alloc: Global, answer: &mut Answer, layout: &L, given: &str) {
    match masks(alloc, given) {
        Ok(masks) => {
            match layout.matching_fields(alloc, &masks) {
                Ok(matches) => {
                    push_listed(answer, &matches);
                    drop(matches);
                }
                Err(error) => {
                    match &error {
                        LayoutError::FieldNotFound(name) => {
                            write!(answer, "FieldNotFound({})", name.as_str());
                        }
                        error => answer.push(error),
                    }
                    drop(error);
                }
            }
            drop(masks);
        }
        Err(error) => answer.push(error),
    }
}

fn push_listed(answer: &mut Answer, matches: &[(FieldMask, u64)]) {
    if matches.is_empty() {
        answer.push_str("-");
    }
    for i in 0..matches.len() {
        let (mask, number) = &matches[i];
        answer.push_str(if i > 0 { ", " } else { "" });
        answer.push(*number);
        answer.push_str(" ");
        push_mask(answer, Some(mask));
    }
}

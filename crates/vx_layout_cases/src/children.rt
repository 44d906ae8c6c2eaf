//! What children by themselves are.

use crate::given::dtype_in;
use crate::nodes::children_in;
use std::alloc::Global;
use vx_case_lines::{Answer, cut};
use vx_layout::{LayoutChild, LayoutChildren, LayoutChildrenWalk, LayoutError};
use vx_model::DType;

/// Of the words `children` and `children_copy`.
pub(crate) fn tell_children(alloc: Global, answer: &mut Answer, word: &str, args: &str) {
    let (dtype, text) = cut(args);
    match children_in(alloc, text) {
        Ok(children) => {
            let dtype = dtype_in(dtype);
            if word == "children_copy" {
                match children.to_arc() {
                    Ok(copy) => {
                        tell_each(answer, &copy, &dtype);
                        drop(copy);
                    }
                    Err(error) => answer.push(error),
                }
            } else {
                tell_each(answer, &children, &dtype);
            }
            drop(children);
            drop(dtype);
        }
        Err(error) => answer.push(error),
    }
}

/// The children as layouts of the type, then their places and that of none.
pub(crate) fn tell_places(answer: &mut Answer, children: &LayoutChildren, dtype: &DType) {
    tell_each(answer, children, dtype);
    for i in 0..children.nchildren() {
        write!(answer, "\n{:?}", children.place(i));
    }
    write!(answer, "\n{:?}", children.place(children.nchildren()));
}

fn tell_each(answer: &mut Answer, children: &LayoutChildren, dtype: &DType) {
    for i in 0..children.nchildren() {
        push_child(answer, children.child(i, dtype));
        let whole = children.child_is_indivisible(i);
        write!(answer, " {whole} {}\n", children.child_row_count(i));
    }
    push_child(answer, children.child(children.nchildren(), dtype));
}

/// The child in a line, or the name of the refusal.
fn push_child(answer: &mut Answer, child: Result<LayoutChild<'_>, LayoutError>) {
    match child {
        Ok(child) => {
            answer.push(child.layout());
            drop(child);
        }
        Err(error) => {
            answer.push_str(error.name());
            drop(error);
        }
    }
}

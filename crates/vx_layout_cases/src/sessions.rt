//! What sessions know, and what layouts are built in.

use crate::scopes::{kind_in, scope, session};
use anyhow::Result;
use std::alloc::Global;
use vx_case_lines::{Answer, cut};
use vx_layout::{LayoutSession, LayoutSessionExt, Scope};

pub(crate) fn tell_known(alloc: Global, answer: &mut Answer, id: &str) {
    match session(alloc) {
        Ok(session) => {
            answer.push(session.layouts().registry().find(id).is_some());
            drop(session);
        }
        Err(error) => answer.push(error),
    }
}

pub(crate) fn tell_registered(alloc: Global, answer: &mut Answer, args: &str) {
    let (kind, id) = cut(args);
    match alone(alloc, kind) {
        Ok(layouts) => {
            match layouts.registry().find(id) {
                Some(found) => answer.push(found),
                None => answer.push_str("nothing"),
            }
            drop(layouts);
        }
        Err(error) => answer.push(error),
    }
}

/// The kind is registered, and no other.
fn alone(alloc: Global, id: &str) -> Result<LayoutSession> {
    let kind = kind_in(alloc, id)?;
    let mut layouts = LayoutSession::empty(alloc);
    layouts.register(kind)?;
    Ok(layouts)
}

/// Of a copy.
pub(crate) fn tell_scope(alloc: Global, answer: &mut Answer, id: &str) {
    match scope(alloc) {
        Ok(scope) => {
            match scope.clone() {
                Ok(copy) => {
                    push_scope(answer, &copy, id);
                    drop(copy);
                }
                Err(error) => answer.push(error),
            }
            drop(scope);
        }
        Err(error) => answer.push(error),
    }
}

fn push_scope(answer: &mut Answer, scope: &Scope, id: &str) {
    write!(
        answer,
        "{} {:?} ",
        scope.ids.ids().len(),
        scope.ids.place(id)
    );
    answer.push(scope.context.aggregates.len());
    answer.push_str(" ");
    answer.push(scope.allow_unknown);
    answer.push_str(" ");
    answer.push(scope.context.allow_unknown);
}

//! A case and its answer.

use crate::answers::{tell_alone, tell_layout};
use crate::parts::layout;
use std::alloc::Global;
use std::thread::Threads;
use vx_case_lines::{Answer, asked, cut};

/// The answer to the case of this name, whose line goes on so.
pub fn tell(rt: &impl Threads, alloc: Global, answer: &mut Answer, name: &str, rest: &str) {
    let (head, given) = asked(rest);
    let (word, args) = cut(head);
    let mut told = Answer::new(alloc);
    if word == "build" {
        tell_of(rt, alloc, &mut told, word, args, rest);
    } else if given.is_empty() {
        tell_alone(alloc, &mut told, word, args);
    } else {
        tell_of(rt, alloc, &mut told, word, args, given);
    }
    answer.push_lines(name, told);
}

fn tell_of(
    rt: &impl Threads,
    alloc: Global,
    answer: &mut Answer,
    word: &str,
    args: &str,
    given: &str,
) {
    match layout(alloc, given) {
        Ok(layout) => {
            tell_layout(rt, alloc, answer, word, args, &layout);
            drop(layout);
        }
        Err(error) => answer.push(error),
    }
}

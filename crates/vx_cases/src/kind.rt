//! What cases are of.

use std::alloc::{AllocError, Global};
use std::thread::Threads;
use vx_case_lines::{Answer, cut};

/// What cases are of.
#[derive(Clone, Copy, PartialEq, Eq)]
pub(crate) enum Kind {
    Jobs,
    Chunks,
    Values,
    Rules,
    Layouts,
    Files,
    Bytes,
}

impl Kind {
    pub(crate) fn from_name(name: &str) -> Option<Kind> {
        match name {
            "jobs" => Some(Kind::Jobs),
            "chunks" => Some(Kind::Chunks),
            "values" => Some(Kind::Values),
            "rules" => Some(Kind::Rules),
            "layouts" => Some(Kind::Layouts),
            "files" => Some(Kind::Files),
            "bytes" => Some(Kind::Bytes),
            _ => None,
        }
    }

    /// The answer to the case of a line; nothing of jobs.
    pub(crate) fn told(
        self,
        rt: &impl Threads,
        alloc: Global,
        line: &str,
    ) -> Result<String, AllocError> {
        let mut answer = Answer::new(alloc);
        let (name, rest) = cut(line);
        match self {
            Kind::Jobs => {}
            Kind::Chunks => vx_chunk_cases::tell(alloc, &mut answer, name, rest),
            Kind::Values => vx_value_cases::tell(alloc, &mut answer, name, rest),
            Kind::Rules => vx_rule_cases::tell(alloc, &mut answer, name, rest),
            Kind::Layouts => vx_layout_cases::tell(rt, alloc, &mut answer, name, rest),
            Kind::Files => vx_file_cases::tell_file(alloc, &mut answer, name, rest),
            Kind::Bytes => vx_file_cases::tell_bytes(alloc, &mut answer, name, rest),
        }
        answer.into_text()
    }
}

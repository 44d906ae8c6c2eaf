//! The program: does what its words say, with standard input and standard output, and tells people on standard error
//! how far it is where they ask for that, and how it ended where that isn't well.
#![tactic(auto)]

use std::alloc::AllocError;
use std::env::{Env, FillError};
use std::process::ExitCode;
use vx_gate::NoGate;
use vx_messages::{Front, Message, ProgressLines};
use vx_run::{RealInput, RealOutput, Status};
use vx_run_columns::top_told;

// A word that is longer is no command.
const WORD: usize = 16;

fn main(rt: HostRuntime) -> ExitCode {
    let Ok(words) = words(&rt) else {
        return end(&rt, Status::OutOfMemory, &[]);
    };
    let mut input = RealInput::new(rt.stdin());
    let mut output = Front::new(RealOutput::new(rt.stdout()));
    let progress = ProgressLines::new(&rt);
    let status = top_told(
        &rt,
        rt.alloc(),
        &words,
        &mut input,
        &mut output,
        &NoGate,
        progress,
    );
    end(&rt, status, output.front())
}

/// The words behind the program's name. Bytes that aren't UTF-8, and words that are too long for a command, become
/// words that are none.
fn words<R: Env + AllocGlobal>(rt: &R) -> Result<Vec<String>, AllocError> {
    let mut words = Vec::new(rt.alloc());
    let mut word = [0u8; WORD];
    for i in 1..usize::MAX {
        let bytes = match rt.arg(i, &mut word) {
            Ok(count) => &word[..count],
            Err(FillError::TooLong) => b"too long",
            Err(FillError::NotPresent) => break,
        };
        words.push(String::from_utf8_lossy(rt.alloc(), bytes)?)?;
    }
    Ok(words)
}

/// The exit status, once its message is told. That this can't be written changes nothing.
fn end(rt: &impl Eprint, status: Status, answer: &[u8]) -> ExitCode {
    if let Some(message) = Message::of(status, answer) {
        let _ = eprintln!(rt; "vx_tool: {message}");
    }
    ExitCode::from(status as u8)
}

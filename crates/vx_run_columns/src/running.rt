//! The command `columns`, and all commands.

ghost use Rattle.std.specs.Prelude.{◌≡◌, ◌↔◌, ℕ, ◌+◌, true, false, List, Some, None, codes, map, string_bytes, IsTrue};
ghost use Rattle.std.specs.Io.KnownBytes.{IsAtEnd};
ghost use Rattle.vx_fault.specs.Counts.{Counts};
ghost use Rattle.vx_job.specs.JobText.{job, limit};
ghost use Rattle.vx_run.specs.declared.status.Status.TheVariants as statuses;
ghost use Rattle.vx_run.specs.Commands.{command_of};
ghost use Rattle.vx_run.specs.Running.{is_input_fault, is_output_fault, is_usage, Ends, MayFail, Took, HasRead, has_read};
ghost use Rattle.vx_run.specs.Runs.{pipe_at};
ghost use Rattle.vx_run_columns.specs.BesideAnswers.{IsAnswerBeside};
ghost use Rattle.vx_run_columns.specs.RunsBeside.{RunsBeside, RunsAll, asks_columns};

use crate::answer::columns_answer;
use std::alloc::Global;
use std::sync::Wait;
use std::thread::Threads;
use vx_gate::Gate;
use vx_run::{
    Input, InputFailure, Nobody, Output, Progress, Status, finish_rows, read_all, run_told,
};

/// Reads a job to the end of the input, writes it column by column, each in a thread of its own and behind the gate, and prints
/// its report without the steps. The job's schedule isn't used; each column's compressor fails at the job's list of calls.
///
/// A job whose strategy doesn't write its schema column by column, or that has no column, is `bad job at strategy`.
pub fn run_columns<I: Input, O: Output, G: Gate + Sync, R: Threads + Wait + Sync>(
    rt: &R,
    alloc: Global,
    input: &mut I,
    output: &mut O,
    gate: &G,
) -> Status
    ensures runs { RunsBeside (pipe_at I.faults I.may_fail I.to_come input.old) (pipe_at I.faults I.may_fail I.to_come input.new)
        (pipe_at O.faults O.may_fail O.written output.old) (pipe_at O.faults O.may_fail O.written output.new) result }
{
    print_answer(rt, alloc, input, output, gate)
}

/// Reads the input to its end, and prints the command's answer.
#[tactic(auto, using(vx_run::proofs::RunSteps::run_rules))]
fn print_answer<I: Input, O: Output, G: Gate + Sync, R: Threads + Wait + Sync>(
    rt: &R,
    alloc: Global,
    input: &mut I,
    output: &mut O,
    gate: &G,
) -> Status
    ensures input_count { Counts (I.faults input.old) (I.faults input.new) (is_input_fault result) }
    ensures output_count { Counts (O.faults output.old) (O.faults output.new) (is_output_fault result) }
    ensures may_input { is_input_fault result ≡ true → MayFail (I.may_fail input.old) }
    ensures may_output { is_output_fault result ≡ true → MayFail (O.may_fail output.old) }
    ensures ended { has_read result ≡ true → IsAtEnd (I.to_come input.new) }
    ensures judged { result ≡ statuses.BadJob → (bytes : List ℕ) × HasRead (I.to_come input.old) (I.to_come input.new) bytes }
    ensures took { Took (limit + 1) (I.to_come input.old) (I.to_come input.new) }
    ensures early { is_input_fault result ≡ true → Took limit (I.to_come input.old) (I.to_come input.new) }
    ensures known { is_usage result ≡ false }
    ensures ran { (bytes : List ℕ) → I.to_come input.old ≡ Some bytes
        → Ends (IsAnswerBeside (job bytes)) (O.written output.old) (O.written output.new) result }
{
    match read_all(alloc, input) {
        Ok(bytes) => match columns_answer(rt, alloc, &bytes, gate) {
            Ok(answer) => finish_rows(alloc, output, &answer),
            Err(_) => Status::OutOfMemory,
        },
        Err(InputFailure::Failed) => Status::InputFault,
        Err(InputFailure::OutOfMemory) => Status::OutOfMemory,
    }
}

/// All that the program does: `columns` alone with this gate, and else what `run` does.
pub fn top<I: Input, O: Output, G: Gate + Sync, R: Threads + Wait + Sync>(
    rt: &R,
    alloc: Global,
    words: &[String],
    input: &mut I,
    output: &mut O,
    gate: &G,
) -> Status
    ensures runs { RunsAll (map string_bytes words.now)
        (pipe_at I.faults I.may_fail I.to_come input.old) (pipe_at I.faults I.may_fail I.to_come input.new)
        (pipe_at O.faults O.may_fail O.written output.old) (pipe_at O.faults O.may_fail O.written output.new) result }
    ensures untouched { (map string_bytes words.now ≡ asks_columns → ⊥) → command_of (map string_bytes words.now) ≡ None → input.new ≡ input.old }
{
    top_told(rt, alloc, words, input, output, gate, Nobody)
}

/// As `top`, and tells as `run_told` does of a write that isn't by columns.
pub fn top_told<I: Input, O: Output, G: Gate + Sync, R: Threads + Wait + Sync, P: Progress + Drop>(
    rt: &R,
    alloc: Global,
    words: &[String],
    input: &mut I,
    output: &mut O,
    gate: &G,
    progress: P,
) -> Status
    ensures runs { RunsAll (map string_bytes words.now)
        (pipe_at I.faults I.may_fail I.to_come input.old) (pipe_at I.faults I.may_fail I.to_come input.new)
        (pipe_at O.faults O.may_fail O.written output.old) (pipe_at O.faults O.may_fail O.written output.new) result }
    ensures untouched { (map string_bytes words.now ≡ asks_columns → ⊥) → command_of (map string_bytes words.now) ≡ None → input.new ≡ input.old }
{
    if are_columns(words) {
        run_columns(rt, alloc, input, output, gate)
    } else {
        run_told(alloc, words, input, output, progress)
    }
}

/// Whether the words are `columns` alone.
fn are_columns(words: &[String]) -> bool
    ensures { IsTrue result ↔ (map string_bytes words.now ≡ asks_columns) }
{
    match words {
        [word] => is_columns(word.as_str()),
        [] | [_, _, ..] => false,
    }
}

fn is_columns(word: &str) -> bool
    ensures { IsTrue result ↔ (word.now ≡ codes "columns") }
{
    word == "columns"
}

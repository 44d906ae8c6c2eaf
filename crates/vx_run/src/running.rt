//! The program.

ghost use Rattle.std.specs.Prelude.{◌≡◌, ℕ, ◌+◌, ◌≤◌, true, false, List, Some, None, map, string_bytes, IfOk, OnOk, OnErr};
ghost use Rattle.std.specs.Io.KnownBytes.{Appends, IsAtEnd};
ghost use Rattle.vx_fault.specs.Counts.{Counts};
ghost use Rattle.vx_generator_laws.specs.TableWrite.{most_rows};
ghost use Rattle.vx_run.specs.Summary.{summary};
ghost use Rattle.vx_job.specs.JobText.{limit};
ghost use Rattle.vx_run.specs.declared.status.Status.TheVariants as statuses;
ghost use Rattle.vx_run.specs.Answers.{IsText};
ghost use Rattle.vx_run.specs.Commands.{command_of, AsksRows, Answers};
ghost use Rattle.vx_run.specs.Failures.{input_failed, output_failed};
ghost use Rattle.vx_run.specs.Running.{usage, is_input_fault, is_output_fault, is_usage, Ends, MayFail, Took, HasRead, has_read, Finishes, AppendsFront};
ghost use Rattle.vx_run.specs.Runs.{pipe_at, Runs};

use crate::command::{Command, answer_by, command_of, rows_asked};
use crate::input::{Input, InputFailure};
use crate::output::{Output, OutputFailure};
use crate::row_printing::finish_rows;
use crate::status::Status;
use crate::summary::table_summary;
use std::alloc::Global;
use vx_job::LIMIT;
use vx_progress::{Nobody, Progress};

/// Does what the words say with the input and the output, and gives the exit status.
///
/// A command that is one word reads its input to the end and prints its answer. `gen` with a number of rows reads no input: it
/// writes the generated table, reads it back and prints the summary. Other words print the usage.
pub fn run<I: Input, O: Output>(
    alloc: Global,
    words: &[String],
    input: &mut I,
    output: &mut O,
) -> Status
    ensures runs { Runs (map string_bytes words.now)
        (pipe_at I.faults I.may_fail I.to_come input.old) (pipe_at I.faults I.may_fail I.to_come input.new)
        (pipe_at O.faults O.may_fail O.written output.old) (pipe_at O.faults O.may_fail O.written output.new) result }
    ensures untouched { command_of (map string_bytes words.now) ≡ None → input.new ≡ input.old }
{
    run_told(alloc, words, input, output, Nobody)
}

/// As `run`, which tells nobody: tells of each batch that a write takes how many there are by then, with the rows and the
/// segments.
#[tactic(auto, using(crate::proofs::RunSteps::run_rules))]
pub fn run_told<I: Input, O: Output, P: Progress + Drop>(
    alloc: Global,
    words: &[String],
    input: &mut I,
    output: &mut O,
    progress: P,
) -> Status
    ensures runs { Runs (map string_bytes words.now)
        (pipe_at I.faults I.may_fail I.to_come input.old) (pipe_at I.faults I.may_fail I.to_come input.new)
        (pipe_at O.faults O.may_fail O.written output.old) (pipe_at O.faults O.may_fail O.written output.new) result }
    ensures untouched { command_of (map string_bytes words.now) ≡ None → input.new ≡ input.old }
{
    match command_of(words) {
        Some(command) => run_command(alloc, command, input, output, progress),
        None => run_other(alloc, words, output, progress),
    }
}

/// Does what words say that are no command over an input: prints the summary of the generated table where they ask for it, and
/// else the usage.
fn run_other<O: Output, P: Progress + Drop>(
    alloc: Global,
    words: &[String],
    output: &mut O,
    progress: P,
) -> Status
    ensures count { Counts (O.faults output.old) (O.faults output.new) (is_output_fault result) }
    ensures may { is_output_fault result ≡ true → MayFail (O.may_fail output.old) }
    ensures unread { is_input_fault result ≡ false }
    ensures used { ((n : ℕ) → ¬ AsksRows (map string_bytes words.now) n)
        → Ends (IsText statuses.Usage usage) (O.written output.old) (O.written output.new) result }
    ensures summed { (n : ℕ) → AsksRows (map string_bytes words.now) n
        → Ends (IsText statuses.Done (summary n)) (O.written output.old) (O.written output.new) result }
{
    match rows_asked(alloc, words) {
        Ok(Some(rows)) => sum_up(alloc, rows, output, progress),
        Ok(None) => finish(
            output,
            Status::Usage,
            "usage: vx_tool write | gen N | tree | columns\n",
        ),
        Err(_) => Status::OutOfMemory,
    }
}

/// Writes the generated table of so many rows, and prints its summary.
fn sum_up<O: Output, P: Progress + Drop>(
    alloc: Global,
    rows: u32,
    output: &mut O,
    progress: P,
) -> Status
    requires { rows ≤ most_rows }
    ensures count { Counts (O.faults output.old) (O.faults output.new) (is_output_fault result) }
    ensures may { is_output_fault result ≡ true → MayFail (O.may_fail output.old) }
    ensures unread { is_input_fault result ≡ false }
    ensures summed { Ends (IsText statuses.Done (summary rows)) (O.written output.old) (O.written output.new) result }
{
    match table_summary(alloc, rows, progress) {
        Ok(text) => finish(output, Status::Done, &text),
        Err(_) => Status::OutOfMemory,
    }
}

/// Reads the input to its end, and prints the command's answer.
#[tactic(auto, using(crate::proofs::RunSteps::run_rules))]
fn run_command<I: Input, O: Output, P: Progress + Drop>(
    alloc: Global,
    command: Command,
    input: &mut I,
    output: &mut O,
    progress: P,
) -> Status
    ensures input_count { Counts (I.faults input.old) (I.faults input.new) (is_input_fault result) }
    ensures output_count { Counts (O.faults output.old) (O.faults output.new) (is_output_fault result) }
    ensures may_input { is_input_fault result ≡ true → MayFail (I.may_fail input.old) }
    ensures may_output { is_output_fault result ≡ true → MayFail (O.may_fail output.old) }
    ensures ended { has_read result ≡ true → IsAtEnd (I.to_come input.new) }
    ensures judged { result ≡ statuses.BadJob → (bytes : List ℕ) × HasRead (I.to_come input.old) (I.to_come input.new) bytes }
    ensures took { Took (limit + 1) (I.to_come input.old) (I.to_come input.new) }
    ensures early { is_input_fault result ≡ true → Took limit (I.to_come input.old) (I.to_come input.new) }
    ensures known { is_usage result ≡ false }
    ensures ran { (bytes : List ℕ) → I.to_come input.old ≡ Some bytes
        → Ends (Answers command bytes) (O.written output.old) (O.written output.new) result }
{
    match read_all(alloc, input) {
        Ok(bytes) => match answer_by(alloc, command, &bytes, progress) {
            Ok(answer) => finish_rows(alloc, output, &answer),
            Err(_) => Status::OutOfMemory,
        },
        Err(InputFailure::Failed) => Status::InputFault,
        Err(InputFailure::OutOfMemory) => Status::OutOfMemory,
    }
}

/// Reads to the end, or one byte past the limit.
#[tactic(auto, using(crate::proofs::RunSteps::read_rules))]
pub fn read_all<I: Input>(alloc: Global, input: &mut I) -> Result<Vec<u8>, InputFailure>
    ensures read { IfOk result (λ bytes. HasRead (I.to_come input.old) (I.to_come input.new) bytes.items) }
    ensures took { OnErr result (Took limit (I.to_come input.old) (I.to_come input.new)) }
    ensures count { Counts (I.faults input.old) (I.faults input.new) (input_failed result) }
    ensures may { input_failed result ≡ true → MayFail (I.may_fail input.old) }
{
    let mut bytes = Vec::new(alloc);
    let mut buffer = [0u8; 4096];
    'reads: while bytes.len() <= LIMIT {
        let want = (LIMIT + 1 - bytes.len()).min(buffer.len());
        if bytes.reserve(want).is_err() {
            return Err(InputFailure::OutOfMemory);
        }
        let part = &mut buffer[..want];
        let count = input.read(part)? as usize;
        if count == 0 {
            return Ok(bytes);
        }
        bytes.extend_from_slice(&part[..count]).unwrap();
    }
    Ok(bytes)
}

/// Writes the text, and gives the status unless that fails.
pub fn finish<O: Output>(output: &mut O, status: Status, text: &str) -> Status
    requires { is_output_fault status ≡ false }
    ensures count { Counts (O.faults output.old) (O.faults output.new) (is_output_fault result) }
    ensures may { is_output_fault result ≡ true → MayFail (O.may_fail output.old) }
    ensures wrote { Finishes status text.now (O.written output.old) (O.written output.new) result }
{
    match write_all(output, text.as_bytes()) {
        Ok(()) => status,
        Err(OutputFailure::Failed) => Status::OutputFault,
        Err(OutputFailure::OutOfMemory) => Status::OutOfMemory,
    }
}

#[tactic(auto, using(crate::proofs::RunSteps::write_rules))]
pub(crate) fn write_all<O: Output>(output: &mut O, bytes: &[u8]) -> Result<(), OutputFailure>
    ensures all { OnOk result (Appends (O.written output.old) (O.written output.new) bytes.now) }
    ensures front { OnErr result (AppendsFront (O.written output.old) (O.written output.new) bytes.now) }
    ensures count { Counts (O.faults output.old) (O.faults output.new) (output_failed result) }
    ensures may { output_failed result ≡ true → MayFail (O.may_fail output.old) }
    ensures kept { OnOk result ((k : ℕ) → O.may_fail output.new k → MayFail (O.may_fail output.old)) }
{
    let mut at = 0;
    'writes: while at < bytes.len() {
        let rest = bytes.split_at(at).1;
        at += output.write(rest)? as usize;
    }
    Ok(())
}

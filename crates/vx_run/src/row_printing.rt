//! Printing an answer with rows.

ghost use Rattle.std.specs.Prelude.{◌≡◌, ℕ, true, false, length, OnOk, OnErr};
ghost use Rattle.std.specs.Io.KnownBytes.{Appends};
ghost use Rattle.vx_fault.specs.Counts.{Counts};
ghost use Rattle.vx_read_chunk.specs.Held.{part_rows, held_rows};
ghost use Rattle.vx_report.specs.RowText.{row_lines};
ghost use Rattle.vx_run.specs.Failures.{output_failed};
ghost use Rattle.vx_run.specs.Told.{told_text};
ghost use Rattle.vx_run.specs.Running.{is_output_fault, MayFail, Finishes, AppendsFront};

use crate::answer::RowsAnswer;
use crate::output::{Output, OutputFailure};
use crate::running::write_all;
use crate::status::Status;
use std::alloc::Global;
use vx_read_chunk::{HeldPart, HeldRows};
use vx_report::row_lines;

/// Rows whose lines are made at a time.
const ROWS: u64 = 1024;

/// Writes the text and the lines of the rows, these some at a time, and gives the status unless that fails.
pub fn finish_rows<O: Output>(alloc: Global, output: &mut O, answer: &RowsAnswer) -> Status
    requires { is_output_fault answer.now.answer.status ≡ false }
    ensures count { Counts (O.faults output.old) (O.faults output.new) (is_output_fault result) }
    ensures may { is_output_fault result ≡ true → MayFail (O.may_fail output.old) }
    ensures wrote { Finishes answer.now.answer.status (told_text answer.now) (O.written output.old) (O.written output.new) result }
{
    match write_answer(alloc, output, answer) {
        Ok(()) => answer.answer.status,
        Err(OutputFailure::Failed) => Status::OutputFault,
        Err(OutputFailure::OutOfMemory) => Status::OutOfMemory,
    }
}

#[tactic(auto, using(crate::proofs::RowSteps::print_rules))]
fn write_answer<O: Output>(
    alloc: Global,
    output: &mut O,
    answer: &RowsAnswer,
) -> Result<(), OutputFailure>
    ensures all { OnOk result (Appends (O.written output.old) (O.written output.new) (told_text answer.now)) }
    ensures front { OnErr result (AppendsFront (O.written output.old) (O.written output.new) (told_text answer.now)) }
    ensures count { Counts (O.faults output.old) (O.faults output.new) (output_failed result) }
    ensures may { output_failed result ≡ true → MayFail (O.may_fail output.old) }
{
    write_all(output, answer.answer.text.as_bytes())?;
    write_rows(alloc, output, &answer.rows)
}

/// Writes a line a row.
#[tactic(auto, using(crate::proofs::RowSteps::print_rules))]
fn write_rows<O: Output>(
    alloc: Global,
    output: &mut O,
    rows: &HeldRows,
) -> Result<(), OutputFailure>
    ensures all { OnOk result (Appends (O.written output.old) (O.written output.new) (row_lines (held_rows rows.now))) }
    ensures front { OnErr result (AppendsFront (O.written output.old) (O.written output.new) (row_lines (held_rows rows.now))) }
    ensures count { Counts (O.faults output.old) (O.faults output.new) (output_failed result) }
    ensures may { output_failed result ≡ true → MayFail (O.may_fail output.old) }
    ensures kept { OnOk result ((k : ℕ) → O.may_fail output.new k → MayFail (O.may_fail output.old)) }
{
    for part in &rows.parts {
        write_part(alloc, output, part)?;
    }
    Ok(())
}

#[tactic(auto, using(crate::proofs::RowSteps::print_rules))]
fn write_part<O: Output>(
    alloc: Global,
    output: &mut O,
    part: &HeldPart,
) -> Result<(), OutputFailure>
    ensures all { OnOk result (Appends (O.written output.old) (O.written output.new) (row_lines (part_rows part.now))) }
    ensures front { OnErr result (AppendsFront (O.written output.old) (O.written output.new) (row_lines (part_rows part.now))) }
    ensures count { Counts (O.faults output.old) (O.faults output.new) (output_failed result) }
    ensures may { output_failed result ≡ true → MayFail (O.may_fail output.old) }
    ensures kept { OnOk result ((k : ℕ) → O.may_fail output.new k → MayFail (O.may_fail output.old)) }
{
    let rows = part.len();
    let mut at = 0;
    'parts: while at < rows {
        let count = ROWS.min(rows - at);
        let Ok(text) = row_lines(alloc, part, at, at + count) else {
            return Err(OutputFailure::OutOfMemory);
        };
        write_all(output, text.as_bytes())?;
        at += count;
    }
    Ok(())
}

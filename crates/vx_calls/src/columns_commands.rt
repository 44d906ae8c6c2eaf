//! The command that writes column by column; and the test of all that writes so, one function since each links the whole write.

use crate::columns_jobs::{COMPRESSED, PLAIN};
use crate::columns_writes::{
    a_sink_that_fails, columns_beside_each_other, two_columns_as_one_machine,
};
use crate::meeting::Meeting;
use std::alloc::Global;
use std::process::Abort;
use std::sync::Wait;
use std::test::Fail;
use std::thread::Threads;
use vx_gate::{Gate, NoGate};
use vx_run::{ByteInput, ByteOutput, Status, run};
use vx_run_columns::{run_columns, top};

/// A write's report without its steps.
fn without_steps(text: &str) -> (&str, &str) {
    match text.split_once("trace\n") {
        Some((front, rest)) => match rest.split_once("rows\n") {
            Some((_steps, rows)) => (front, rows),
            None => (front, ""),
        },
        None => (text, ""),
    }
}

fn columns_word(alloc: Global) -> Result<Vec<String>, Fail> {
    Ok(vec![in alloc; String::from_str(alloc, "columns")?]?)
}

/// What `write` answers to the job, and what `columns` does with this gate.
fn answers<G: Gate + Sync, R: Threads + Wait + Sync>(
    rt: &R,
    alloc: Global,
    job: &str,
    gate: &G,
) -> Result<((Status, Vec<u8>), (Status, Vec<u8>)), Fail> {
    let write = vec![in alloc; String::from_str(alloc, "write")?]?;
    let mut input = ByteInput::new(Vec::from_slice(alloc, job.as_bytes())?, 64, Vec::new(alloc));
    let mut output = ByteOutput::new(64, Vec::new(alloc));
    let wrote = run(alloc, &write, &mut input, &mut output);
    let wanted = Vec::from_slice(alloc, output.bytes())?;
    let columns = columns_word(alloc)?;
    let mut input = ByteInput::new(Vec::from_slice(alloc, job.as_bytes())?, 64, Vec::new(alloc));
    let mut output = ByteOutput::new(64, Vec::new(alloc));
    let done = top(rt, alloc, &columns, &mut input, &mut output, gate);
    let found = Vec::from_slice(alloc, output.bytes())?;
    Ok(((wrote, wanted), (done, found)))
}

fn is_without_steps(alloc: Global, wanted: &[u8], found: &[u8]) -> Result<bool, Fail> {
    let wanted = String::from_utf8_lossy(alloc, wanted)?;
    let found = String::from_utf8_lossy(alloc, found)?;
    let (front, rows) = without_steps(wanted.as_str());
    let text = format!(in alloc; "{front}rows\n{rows}")?;
    Ok(text.as_str() == found.as_str())
}

/// It prints the report of `write` without its steps.
fn columns_as_write<R: Abort + Threads + Wait + Sync>(rt: &R, alloc: Global) -> Result<(), Fail> {
    let ((wrote, wanted), (done, found)) = answers(rt, alloc, PLAIN, &NoGate)?;
    assert!(rt; wrote == Status::Done);
    assert!(rt; done == Status::Done);
    assert!(rt; is_without_steps(alloc, &wanted, &found)?);
    Ok(())
}

/// A strategy that has no columns is no job of it.
fn a_job_without_columns<R: Abort + Threads + Wait + Sync>(
    rt: &R,
    alloc: Global,
) -> Result<(), Fail> {
    let job = r#"{"schema":"i64","strategy":{"chunked":"flat"},"batches":[[7]]}"#;
    let mut input = ByteInput::new(Vec::from_slice(alloc, job.as_bytes())?, 64, Vec::new(alloc));
    let mut output = ByteOutput::new(64, Vec::new(alloc));
    let status = run_columns(rt, alloc, &mut input, &mut output, &NoGate);
    assert!(rt; status == Status::BadJob);
    assert!(rt; output.bytes() == b"bad job at strategy\n".as_slice());
    Ok(())
}

/// Through the program's own call the columns run beside each other too.
fn commands_beside_each_other<R: Abort + Threads + Wait + Sync>(
    rt: &R,
    alloc: Global,
) -> Result<(), Fail> {
    let gate = Meeting::new(rt, 10_000_000);
    let ((wrote, wanted), (done, found)) = answers(rt, alloc, COMPRESSED, &gate)?;
    assert!(rt; wrote == Status::Done);
    assert!(rt; done == Status::Done);
    assert!(rt; is_without_steps(alloc, &wanted, &found)?);
    let seen = gate.into_seen();
    assert!(rt; seen.first_saw);
    assert!(rt; seen.second_saw);
    assert!(rt; !seen.gave_up);
    Ok(())
}

#[test]
fn columns_on_threads(rt: HostRuntime) -> Result<(), Fail> {
    let alloc = rt.alloc();
    two_columns_as_one_machine(&rt, alloc)?;
    a_sink_that_fails(&rt, alloc)?;
    columns_beside_each_other(&rt, alloc)?;
    columns_as_write(&rt, alloc)?;
    a_job_without_columns(&rt, alloc)?;
    commands_beside_each_other(&rt, alloc)
}

//! Answers the cases of its input, a line each. An empty line is skipped, and one that begins with `#`. A line `== KIND` says
//! what the cases below it are:
//!
//! | kind | cases |
//! |---|---|
//! | `jobs` | of the program, as those above the first such line |
//! | `chunks` | of vx_chunk_cases, whose front page says what a line is; and so on |
//! | `values` | of vx_value_cases |
//! | `rules` | of vx_rule_cases |
//! | `layouts` | of vx_layout_cases |
//! | `files`, `bytes` | of vx_file_cases |
//!
//! A case of the program is a name, options, and a command with its job, as `one most=7 write {"schema": ..}`; or a name,
//! options and `words` with the program's words, on the empty input. Of `columns` they are such as end in one way alone,
//! whatever its threads do. The options: `most=N`, at most so many bytes a call;
//! `read_fails=N` and `write_fails=N`, the number of a call that fails, from 0; `hex`, where the job is hex text of the
//! input's bytes. The answer is a line of the name and the status, and what was written; where that ends without a newline,
//! another line says so.
#![tactic(auto)]

ghost use Rattle.std.specs.Prelude.{◌≡◌, ◌++◌, OnOk};
ghost use Rattle.std.specs.Io.KnownBytes.{Appends};
ghost use Rattle.vx_cases.specs.Ending.{ending};

mod case;
mod kind;

use anyhow::{Context, Result};
use case::{Case, parse};
use kind::Kind;
use std::alloc::Global;
use std::io::{self, BufRead, BufReader, BufWriter, Write};
use std::sync::Wait;
use std::thread::Threads;
use vx_case_lines::{cut, is_case};
use vx_gate::NoGate;
use vx_run::{ByteInput, ByteOutput, Status};
use vx_run_columns::top;

/// How the program ends on a case, and what it has written by then.
fn outcome<R: Threads + Wait + Sync>(rt: &R, alloc: Global, case: Case) -> (Status, ByteOutput) {
    let options = case.options;
    let mut input = ByteInput::new(case.input, options.most, options.read_fails);
    let mut output = ByteOutput::new(options.most, options.write_fails);
    let status = top(rt, alloc, &case.words, &mut input, &mut output, &NoGate);
    (status, output)
}

/// Prints the answer to the case of a line.
fn print_answer<W: Write, R: Threads + Wait + Sync>(
    rt: &R,
    alloc: Global,
    kind: Kind,
    line: &str,
    out: &mut W,
) -> Result<()> {
    if kind == Kind::Jobs {
        return print_ended(rt, alloc, line, out);
    }
    let text = kind.told(rt, alloc, line)?;
    out.write_all(text.as_bytes())?;
    Ok(())
}

/// The same of a case of the program.
fn print_ended<W: Write, R: Threads + Wait + Sync>(
    rt: &R,
    alloc: Global,
    line: &str,
    out: &mut W,
) -> Result<()> {
    let (name, text) = cut(line);
    let case = parse(alloc, text).context(format_args!("in the line {line}"))?;
    let (status, output) = outcome(rt, alloc, case);
    out.write_all(name.as_bytes())?;
    writeln!(out, ": status {}", status as u8)?;
    print_output(output.bytes(), out)?;
    Ok(())
}

/// What is printed behind the bytes: where they end without a newline, a line that says so.
fn ending(bytes: &[u8]) -> &'static str
    ensures { result.now ≡ ending bytes.now }
{
    match bytes {
        [.., last] if *last != b'\n' => "\n\\ no newline at the end\n",
        _ => "",
    }
}

/// Prints the bytes as they stand, and their ending.
#[tactic(auto, using(crate::proofs::Appending::appends_more))]
fn print_output<W: Write>(bytes: &[u8], out: &mut W) -> io::Result<()>
    ensures { OnOk result (Appends (W.contents out.old) (W.contents out.new) (bytes.now ++ ending bytes.now)) }
{
    out.write_all(bytes)?;
    out.write_all(ending(bytes).as_bytes())
}

fn main(rt: HostRuntime) -> Result<()> {
    let alloc = rt.alloc();
    let mut out = BufWriter::new(alloc, io::writer(&rt))?;
    let mut kind = Kind::Jobs;
    for line in BufReader::new(alloc, rt.reader())?.lines(alloc) {
        let line = line?;
        if let Some(name) = line.strip_prefix("== ") {
            kind = Kind::from_name(name).context("no such kind")?;
        } else if is_case(&line) {
            print_answer(&rt, alloc, kind, &line, &mut out)?;
        }
    }
    out.flush()?;
    Ok(())
}

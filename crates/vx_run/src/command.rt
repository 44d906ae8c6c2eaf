//! What the words may ask for.

ghost use Rattle.std.specs.Prelude.{◌≡◌, ◌↔◌, ◌∷◌, [], map, string_bytes, decimal, IsTrue, IfOk};
ghost use Rattle.vx_run.specs.Commands.{command_of, command_named, IsNumber, TellsRows, Answers};
ghost use Rattle.vx_job.specs.TreeText.{tree_job};
ghost use Rattle.vx_run.specs.TreeAnswers.{IsTreeAnswer};
ghost use Rattle.vx_run.specs.Told.{told_text};

use crate::answer::{RowsAnswer, answer_to, without_rows};
use crate::summary::MOST_ROWS;
use crate::tree::tree_answer;
use std::alloc::{AllocError, Global};
use vx_progress::Progress;

/// Each reads an input and prints one answer.
#[derive(Clone, Copy, Debug, PartialEq, Eq)]
pub enum Command {
    /// Writes a job, and reports.
    Write,
    /// Shows the tree of a layout of bytes.
    Tree,
}

pub(crate) fn command_of(words: &[String]) -> Option<Command>
    ensures { result ≡ command_of (map string_bytes words.now) }
{
    match words {
        [word] => command_named(word.as_str()),
        [] | [_, _, ..] => None,
    }
}

fn command_named(word: &str) -> Option<Command>
    ensures { result ≡ command_named word.now }
{
    if word == "write" {
        Some(Command::Write)
    } else if word == "tree" {
        Some(Command::Tree)
    } else {
        None
    }
}

/// The command's answer to the bytes of an input.
pub(crate) fn answer_by<P: Progress + Drop>(
    alloc: Global,
    command: Command,
    bytes: &[u8],
    progress: P,
) -> Result<RowsAnswer, AllocError>
    ensures { IfOk result (λ a. Answers command bytes.now a.answer.status (told_text a)) }
{
    match command {
        Command::Write => answer_to(alloc, bytes, progress),
        Command::Tree => tree_alone(alloc, bytes),
    }
}

/// The answer of `tree`, which has no rows.
fn tree_alone(alloc: Global, bytes: &[u8]) -> Result<RowsAnswer, AllocError>
    ensures { IfOk result (λ a. IsTreeAnswer (tree_job bytes.now) a.answer.status (told_text a)) }
{
    let answer = tree_answer(alloc, bytes)?;
    Ok(without_rows(alloc, answer))
}

/// The rows of the table that the words ask for: `gen` and a number from 1 to 1,000,000, in decimal.
pub(crate) fn rows_asked(alloc: Global, words: &[String]) -> Result<Option<u32>, AllocError>
    ensures { IfOk result (TellsRows (map string_bytes words.now)) }
{
    match words {
        [word, number] => rows_named(alloc, word.as_str(), number.as_str()),
        [] | [_] | [_, _, _, ..] => Ok(None),
    }
}

fn rows_named(alloc: Global, word: &str, number: &str) -> Result<Option<u32>, AllocError>
    ensures { IfOk result (TellsRows (word.now ∷ number.now ∷ [])) }
{
    if word == "gen" {
        rows_of(alloc, number)
    } else {
        Ok(None)
    }
}

/// The number of rows that a word is in decimal, without a sign and without a zero in front.
fn rows_of(alloc: Global, word: &str) -> Result<Option<u32>, AllocError>
    ensures { IfOk result (IsNumber word.now) }
{
    let Ok(rows) = word.parse::<u32>() else {
        return Ok(None);
    };
    if rows == 0 {
        return Ok(None);
    }
    if rows > MOST_ROWS {
        return Ok(None);
    }
    let same = is_decimal(alloc, rows, word)?;
    if same { Ok(Some(rows)) } else { Ok(None) }
}

/// Whether the word is the number in decimal.
fn is_decimal(alloc: Global, rows: u32, word: &str) -> Result<bool, AllocError>
    ensures { IfOk result (λ b. IsTrue b ↔ (word.now ≡ decimal rows)) }
{
    let digits = format!(in alloc; "{rows}")?;
    Ok(digits.as_str() == word)
}

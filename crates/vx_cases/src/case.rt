//! A line of the input as a case.

ghost use Rattle.std.specs.Prelude.{◌≡◌, ◌==◌, ◌<◌, true, false, Ok, IfOk};
ghost use Rattle.hex.specs.Hex.{decode_of};

use anyhow::{Result, bail, ensure};
use std::alloc::{AllocError, Global};
use vx_case_lines::{bytes_of, cut};

/// What the program is run on.
#[derive(Drop)]
pub(crate) struct Case {
    pub words: Vec<String>,
    pub input: Vec<u8>,
    pub options: Options,
}

/// How the input is given and the output taken.
#[derive(Drop)]
pub(crate) struct Options {
    /// A call reads or writes at most so many bytes.
    pub most: u64,
    /// The numbers of the calls that fail, from 0.
    pub read_fails: Vec<u64>,
    pub write_fails: Vec<u64>,
    /// Whether the job is hex text of the bytes that are the input.
    pub hex: bool,
    ghost moves: { 0 < most },
}

impl Options {
    /// No call fails.
    fn new(alloc: Global) -> Options {
        Options {
            most: 4096,
            read_fails: Vec::new(alloc),
            write_fails: Vec::new(alloc),
            hex: false,
        }
    }

    /// Takes an option, and says whether the word is one.
    fn set(&mut self, word: &str) -> Result<bool> {
        if word == "hex" {
            self.hex = true;
            return Ok(true);
        }
        let Some((key, number)) = word.split_once('=') else {
            return Ok(false);
        };
        let number = number.parse::<u64>()?;
        if key == "most" {
            ensure!(number > 0, "most=0");
            self.most = number;
        } else if key == "read_fails" {
            self.read_fails.push(number)?;
        } else if key == "write_fails" {
            self.write_fails.push(number)?;
        } else {
            bail!("no option {word}");
        }
        Ok(true)
    }
}

/// The case of what stands behind a name: options, and then a command and its job, or words.
pub(crate) fn parse(alloc: Global, text: &str) -> Result<Case> {
    let (options, rest) = leading_options(alloc, text)?;
    let (kind, job) = cut(rest);
    if kind == "words" {
        let words = words_of(alloc, job)?;
        let input = Vec::new(alloc);
        return Ok(Case {
            words,
            input,
            options,
        });
    }
    ensure!(is_command(kind), "no command");
    let words = words_of(alloc, kind)?;
    let input = input_of(alloc, options.hex, job)?;
    Ok(Case {
        words,
        input,
        options,
    })
}

/// Whether the word is a command that reads an input.
fn is_command(word: &str) -> bool {
    word == "write" || word == "columns" || word == "tree"
}

/// The options at the front of the text, and the text behind them.
fn leading_options(alloc: Global, text: &str) -> Result<(Options, &str)> {
    let mut options = Options::new(alloc);
    let mut rest = text;
    for _ in 0..text.len() {
        let (word, behind) = cut(rest);
        if !options.set(word)? {
            break;
        }
        rest = behind;
    }
    Ok((options, rest))
}

/// The words of the text; `""` is the empty one.
fn words_of(alloc: Global, text: &str) -> Result<Vec<String>, AllocError> {
    let mut words = Vec::new(alloc);
    for word in text.split_whitespace() {
        let word = if word == "\"\"" { "" } else { word };
        words.push(String::from_str(alloc, word)?)?;
    }
    Ok(words)
}

/// The job's bytes.
fn input_of(alloc: Global, is_hex: bool, job: &str) -> Result<Vec<u8>>
    ensures text { is_hex ≡ false → IfOk result (λ v. v.items ≡ job.now) }
    ensures decoded { is_hex ≡ true → IfOk result (λ v. decode_of job.now ≡ Ok v.items) }
{
    if is_hex {
        bytes_of(alloc, job)
    } else {
        Ok(Vec::from_slice(alloc, job.as_bytes())?)
    }
}

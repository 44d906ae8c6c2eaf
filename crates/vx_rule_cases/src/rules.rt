//! Which rule a word names.

ghost use Rattle.std.specs.Prelude.{◌<◌, IsTrue};
ghost use Rattle.vx_model.specs.Ty.{is_list};
ghost use Rattle.vx_model.specs.TyView.{ty};
ghost use Rattle.vx_model.specs.ChunkData.{is_dict_type};

use crate::given::Stream;
use crate::lines::tell_lines;
use anyhow::bail;
use std::alloc::{AllocError, Global};
use vx_case_lines::{Answer, cut, number};
use vx_dict_encoder::DictEncoder;
use vx_nodes::{
    Buffered, Collect, ColumnSplit, DictLayoutConstraints, ListSplit, NodeError, Regroup,
    Repartition, RepartitionWriterOptions, RunCutter, dict_layout_supported,
};

/// What the rule gives; one line where there is no rule.
pub(crate) fn tell(alloc: Global, answer: &mut Answer, word: &str, given: &str, stream: Stream) {
    let told = match word {
        "fields" => tell_fields(alloc, answer, stream),
        "lists" => tell_lists(alloc, answer, stream),
        "runs" | "encode" => tell_dictionaries(alloc, answer, word, given, stream),
        _ => tell_agreed(alloc, answer, word, given, stream),
    };
    if let Err(error) = told {
        answer.push_refusal(stream.name, error);
    }
}

/// What `Regroup` gives, where the rule by itself gives the same.
fn tell_agreed(
    alloc: Global,
    answer: &mut Answer,
    word: &str,
    given: &str,
    stream: Stream,
) -> anyhow::Result<()> {
    let mut one = Answer::new(alloc);
    let mut other = Answer::new(alloc);
    let told = tell_both(alloc, &mut one, &mut other, word, given, stream);
    answer.push_agreed(one, other);
    told
}

fn tell_both(
    alloc: Global,
    one: &mut Answer,
    other: &mut Answer,
    word: &str,
    given: &str,
    stream: Stream,
) -> anyhow::Result<()> {
    match word {
        "blocks" => tell_blocks(alloc, one, other, given, stream),
        "held" => {
            let size = number(given);
            tell_lines(alloc, one, Regroup::buffered(alloc, size), stream);
            tell_lines(alloc, other, Buffered::new(alloc, size), stream);
            Ok(())
        }
        "joined" => Ok(tell_joined(alloc, one, other, stream)?),
        _ => bail!("no word {word}"),
    }
}

fn tell_joined(
    alloc: Global,
    one: &mut Answer,
    other: &mut Answer,
    stream: Stream,
) -> Result<(), AllocError> {
    let rule = Regroup::collect(alloc, stream.dtype.clone()?);
    tell_lines(alloc, one, rule, stream);
    let rule = Collect::new(alloc, stream.dtype.clone()?);
    tell_lines(alloc, other, rule, stream);
    Ok(())
}

fn tell_blocks(
    alloc: Global,
    one: &mut Answer,
    other: &mut Answer,
    given: &str,
    stream: Stream,
) -> anyhow::Result<()> {
    let (rows, rest) = cut(given);
    let (minimum, target) = cut(rest);
    let options = RepartitionWriterOptions {
        block_size_minimum: number(minimum),
        block_len_multiple: number(rows),
        block_size_target: target.parse::<u64>().ok(),
        canonicalize: false,
    };
    let len = options.effective_block_len(stream.dtype);
    if len == 0 {
        bail!("no rows");
    }
    let minimum = options.block_size_minimum;
    Ok(tell_blocks_of(alloc, one, other, len, minimum, stream)?)
}

fn tell_blocks_of(
    alloc: Global,
    one: &mut Answer,
    other: &mut Answer,
    len: u64,
    minimum: u64,
    stream: Stream,
) -> Result<(), AllocError>
    requires { 0 < len }
{
    let rule = Regroup::repartition(alloc, stream.dtype.clone()?, len, minimum);
    tell_lines(alloc, one, rule, stream);
    let rule = Repartition::new(alloc, stream.dtype.clone()?, len, minimum);
    tell_lines(alloc, other, rule, stream);
    Ok(())
}

fn tell_fields(alloc: Global, answer: &mut Answer, stream: Stream) -> anyhow::Result<()> {
    match ColumnSplit::new(alloc, stream.dtype.clone()?) {
        Ok(rule) => tell_lines(alloc, answer, rule, stream),
        Err(refused) => push_refusal(answer, stream.name, &NodeError::from(refused)),
    }
    Ok(())
}

/// Why there is no splitter, with the name that is there twice.
fn push_refusal(answer: &mut Answer, name: &str, refused: &NodeError) {
    match refused {
        NodeError::DuplicateField(field) => {
            write!(answer, "{name}: {refused}, {}\n", field.as_str());
        }
        _ => write!(answer, "{name}: {refused}\n"),
    }
}

fn tell_lists(alloc: Global, answer: &mut Answer, stream: Stream) -> anyhow::Result<()> {
    if !stream.dtype.is_list() {
        bail!("no list");
    }
    Ok(tell_columns(alloc, answer, stream)?)
}

fn tell_columns(alloc: Global, answer: &mut Answer, stream: Stream) -> Result<(), AllocError>
    requires { IsTrue (is_list (ty stream.dtype.now)) }
{
    let rule = ListSplit::new(stream.dtype.clone()?);
    tell_lines(alloc, answer, rule, stream);
    Ok(())
}

fn tell_dictionaries(
    alloc: Global,
    answer: &mut Answer,
    word: &str,
    given: &str,
    stream: Stream,
) -> anyhow::Result<()> {
    let (bytes, len) = cut(given);
    let limits = DictLayoutConstraints {
        max_bytes: number(bytes),
        max_len: len.parse::<u16>()?,
    };
    if !dict_layout_supported(stream.dtype) {
        bail!("no type of a dictionary");
    }
    Ok(tell_dictionary(alloc, answer, word, limits, stream)?)
}

fn tell_dictionary(
    alloc: Global,
    answer: &mut Answer,
    word: &str,
    limits: DictLayoutConstraints,
    stream: Stream,
) -> Result<(), AllocError>
    requires { IsTrue (is_dict_type (ty stream.dtype.now)) }
{
    let dtype = stream.dtype.clone()?;
    if word == "runs" {
        tell_lines(alloc, answer, RunCutter::new(alloc, limits, dtype), stream);
    } else {
        let rule = DictEncoder::new(alloc, limits, dtype);
        write!(
            answer,
            "{}: codes of {:?}\n",
            stream.name,
            rule.codes_ptype()
        );
        tell_lines(alloc, answer, rule, stream);
    }
    Ok(())
}

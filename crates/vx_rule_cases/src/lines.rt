//! The lines of what a rule gives.

ghost use Rattle.vx_model.specs.TyView.{ty};
ghost use Rattle.std.specs.Prelude.{◌≡◌, false, IfOk, OnOk};
ghost use Rattle.vx_model.specs.ChunkData.{piece_type};

use crate::given::Stream;
use crate::rule::Rule;
use crate::shown::push_chunk;
use anyhow::bail;
use serde_json::Value;
use std::alloc::Global;
use vx_case_lines::Answer;
use vx_case_objects::push_values;
use vx_chunk::Chunk;
use vx_chunk_json::read_batch;
use vx_model::DType;
use vx_nodes::Outputs;

/// A line for each chunk; where a batch is refused, the last line says why.
pub(crate) fn tell_lines<R: Rule + Drop>(
    alloc: Global,
    answer: &mut Answer,
    mut rule: R,
    stream: Stream,
)
    requires { R.is_at rule (ty stream.dtype.now) }
{
    let told = push_lines(alloc, answer, &mut rule, stream);
    drop(rule);
    if let Err(error) = told {
        answer.push_refusal(stream.name, error);
    }
}

fn push_lines<R: Rule>(
    alloc: Global,
    answer: &mut Answer,
    rule: &mut R,
    stream: Stream,
) -> anyhow::Result<()>
    requires { R.is_at rule.old (ty stream.dtype.now) }
{
    for i in 0..stream.batches.len() {
        let last = i == stream.batches.len() - 1;
        let given = given(alloc, rule, stream.dtype, &stream.batches[i], last)?;
        push_outputs(alloc, answer, stream.name, i, &given);
        drop(given);
    }
    Ok(())
}

/// The chunk, where it is of the type.
#[tactic(auto, using(vx_model::specs::TyLaws::ty_eq_decides))]
pub(crate) fn of_type(dtype: &DType, chunk: Chunk) -> anyhow::Result<Chunk>
    ensures { IfOk result (λ c. piece_type c ≡ ty dtype.now) }
{
    if chunk.dtype() != dtype {
        drop(chunk);
        bail!("a batch of another type");
    }
    Ok(chunk)
}

/// What the rule gives at the batch.
fn given<R: Rule>(
    alloc: Global,
    rule: &mut R,
    dtype: &DType,
    batch: &Value,
    last: bool,
) -> anyhow::Result<Outputs>
    requires { R.is_at rule.old (ty dtype.now) }
    ensures { OnOk result (last ≡ false → R.is_at rule.new (ty dtype.now)) }
{
    let chunk = of_type(dtype, read_batch(alloc, dtype, batch)?)?;
    Ok(rule.step(alloc, dtype, chunk, last)?)
}

fn push_outputs(alloc: Global, answer: &mut Answer, name: &str, batch: usize, given: &Outputs) {
    if given.items.is_empty() {
        write!(answer, "{name} {batch}: nothing\n");
    }
    for rank in 0..given.items.len() {
        let output = &given.items[rank];
        write!(answer, "{name} {batch} {rank} {:?}: ", output.place);
        push_chunk(alloc, answer, &output.chunk);
        answer.push_str("\n");
    }
    if let Some(values) = &given.zone {
        write!(answer, "{name} {batch} record: ");
        push_values(answer, values);
        answer.push_str("\n");
    }
}

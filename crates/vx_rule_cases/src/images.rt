//! Images of the table compressor.

use crate::given::Stream;
use crate::shown::push_chunk;
use std::alloc::{AllocError, Global};
use vx_case_lines::{Answer, cut, number};
use vx_chunk::{Chunk, Node};
use vx_chunk_json::read_batch;
use vx_sink::{CompressError, CompressorPlugin};
use vx_table_compressor::TableCompressor;

/// A line for each batch: its image, or why there is none.
pub(crate) fn tell(alloc: Global, answer: &mut Answer, given: &str, stream: Stream) {
    if let Err(error) = tell_images(alloc, answer, given, stream) {
        answer.push_refusal(stream.name, error);
    }
}

fn tell_images(
    alloc: Global,
    answer: &mut Answer,
    given: &str,
    stream: Stream,
) -> anyhow::Result<()> {
    let (which, fails) = cut(given);
    let which = which.parse::<u32>()?;
    let mut compressor = TableCompressor::new(numbers(alloc, fails)?);
    push_images(alloc, answer, &mut compressor, which, stream)
}

fn numbers(alloc: Global, text: &str) -> Result<Vec<u64>, AllocError> {
    let mut numbers = Vec::new(alloc);
    for word in text.split_whitespace() {
        numbers.push(number(word))?;
    }
    Ok(numbers)
}

fn push_images<C: CompressorPlugin>(
    alloc: Global,
    answer: &mut Answer,
    compressor: &mut C,
    which: u32,
    stream: Stream,
) -> anyhow::Result<()> {
    for i in 0..stream.batches.len() {
        let chunk = read_batch(alloc, stream.dtype, &stream.batches[i])?;
        let image = compressor.compress_chunk(which, &chunk);
        drop(chunk);
        push_image(alloc, answer, stream.name, i, image);
    }
    Ok(())
}

/// The image, a dictionary as its codes and its values.
fn push_image(
    alloc: Global,
    answer: &mut Answer,
    name: &str,
    batch: usize,
    image: Result<Chunk, CompressError>,
) {
    write!(answer, "{name} {batch}: ");
    match image {
        Ok(chunk) => {
            match chunk.node() {
                Node::Dict { codes, values } => {
                    answer.push_str("codes ");
                    push_chunk(alloc, answer, codes);
                    answer.push_str(" of ");
                    push_chunk(alloc, answer, values);
                }
                _ => push_chunk(alloc, answer, &chunk),
            }
            drop(chunk);
        }
        Err(error) => answer.push(error),
    }
    answer.push_str("\n");
}

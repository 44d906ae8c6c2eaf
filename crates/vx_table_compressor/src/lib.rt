//! A compressor whose images are constants, dictionaries and plain chunks.
#![tactic(auto)]

mod compressor;
mod dictionary;
mod image;
mod same;

pub use compressor::TableCompressor;

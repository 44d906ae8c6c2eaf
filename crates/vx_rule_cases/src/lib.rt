//! Answers cases: what rules in memory, the table compressor, zones, tables of cells and tallies give.
//!
//! A case is a line `NAME WORD GIVEN.. = OBJECT`. The object says a type (`schema`) and chunks of it as batches of a job
//! (`batches`), which are handed over in order, the last one as the last. A line of the answer tells the batch at which
//! a chunk leaves, its rank there, its place, and the chunk: encoding, type and cells, of many the first and the last.
//! Where a batch is refused, the last line says why. Rules run as those of nodes do, the three of `Regroup` by their own
//! calls too, whose answers must be the same.
//!
//! | word | given | answer |
//! |---|---|---|
//! | `blocks` | rows of a block, its least bytes, and where a size is aimed at, that | the blocks, of `Regroup` and of `Repartition` |
//! | `held` | a size in bytes | the chunks that leave, of `Regroup` and of `Buffered` |
//! | `joined` | | the chunk of all, of `Regroup` and of `Collect` |
//! | `fields` | | the columns of structs |
//! | `lists` | | the columns of lists |
//! | `runs` | the bytes that distinct cells cost at most, their greatest number | the codes and the values of runs |
//! | `encode` | the same | the type of the codes; at each batch the codes of the front that a dictionary takes, at the number of its rows; at the end its cells, and those that are left then |
//! | `compress` | the compressor's number, and the numbers of the calls that fail | at each batch its image, of a dictionary the codes and the values, or why there is none |
//! | `table` | | the place of each cell in a table that takes those that are new, and the table's cells |
//! | `zones` | rows of a zone; in the object, where wanted, `aggregates` | the record of each batch, and the table of zones with its aggregates |
//! | `guard` | the same | each batch as the guard hands it on, and its record |
//! | `tally` | calls, their numbers behind colons; no object | the answers |
#![tactic(auto)]

mod case;
mod given;
mod images;
mod lines;
mod rule;
mod rules;
mod shown;
mod table;
mod tallies;
mod zones;

pub use case::tell;

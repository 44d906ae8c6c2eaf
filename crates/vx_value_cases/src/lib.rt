//! Answers cases: what calls on filters and their hash, on paths, masks, aggregates and strategies give.
//!
//! A case is a line `NAME WORD GIVEN`, and its answer a line `NAME: ANSWER`. Parts of what is given stand between ` / `. A filter is
//! given as its number of blocks and the words that are in it, and bytes are hex text (`-`: none). Types, aggregates and strategies
//! are those of a job.
//!
//! | word | given | answer |
//! |---|---|---|
//! | `hash` | a length n | the hash of n bytes, of which byte i is (37 i + 11) mod 256 |
//! | `filter` | a filter | how many bytes it has, how many aren't 0, and the blocks that aren't 0 with their numbers |
//! | `contains` | a filter, a word | whether the filter contains the word |
//! | `read` | bytes, a filter | whether the filter that the bytes are is this one, or why they are none |
//! | `saturated` | bytes | whether the filter that the bytes are is saturated, as the aggregate and as itself says |
//! | `union`, `merge` | three filters | whether the first two are equal, and whether both together are the third |
//! | `lanes` | a number of blocks, a count n | of the filters by vectors and the plain ones of the numbers below n: whether their blocks are equal, and those of their halves together; how many numbers below 2 n each may contain; whether each is saturated |
//! | `options` | bytes | the options that the bytes are, or why they are none |
//! | `default_options` | | the bytes of the options by default |
//! | `scalar` | a type, a value and bytes | whether the value goes into a filter as the bytes, and is then contained |
//! | `accumulate` | pairs of booleans or nulls | whether the filter of the pairs is empty, and which value it contains |
//! | `insert_list` | `null` or `empty` | whether a filter takes the value of lists of booleans |
//! | `state` | `list` or `bool` | the type of a filter's state on the type |
//! | `stored` | a filter, a number of blocks | whether the filter as a value is read again at this number of blocks |
//! | `stored_null` | a number of blocks | whether null is read as the empty filter |
//! | `id` | | the name of filters |
//! | `compare` | two paths, `-` being the empty one | whether the first is less, equal, at most, at least the second |
//! | `child` | a path, an index, a path | the child of the first at the index, and whether it is a copy of the second |
//! | `mask` | `all`, or `prefix` or `exact` and names | the mask below the first name, whether it takes all fields, the first name |
//! | `fields` | a struct type that isn't nullable, masks | of a struct layout the numbers of the fields that are meant, each with the mask as seen from it, or the name that isn't there |
//! | `aggregate` | an aggregate | its text, and whether its id and options name it |
//! | `zoned` | a type | the aggregates that are kept of the type |
//! | `table` | a type, aggregates | the fields of the zone table; nullable ones have a `?` |
//! | `legacy` | a type, names of statistics | the fields of the older zone table |
//! | `stat` | the name of a statistic | its name, its number and its aggregate |
//! | `stats` | two names of statistics | whether the first is less |
//! | `block` | a type, a number of bytes | the rows of a block of at most 8192, and whether a dictionary takes the type |
//! | `overrides` | two names | whether a table takes writers of both, or which paths overlap |
//! | `field` | a name | the kind of a copy of a strategy that has a writer of the name, and of that writer |
//! | `copy` | a strategy | its kind, and whether a copy has the same text |
//! | `dispatch` | a table, a type, a field | the kind of what the table stands for at the type, and of what a struct of that kind writes the field by, or a wrapper wraps |
//! | `defaults` | | the length of a dictionary and the rows of a zone by default |
#![tactic(auto)]

mod aggregates;
mod booleans;
mod case;
mod fields;
mod filters;
mod given;
mod hashes;
mod lanes;
mod matching;
mod options;
mod overrides;
mod paths;
mod scalars;
mod stats;
mod stored;
mod strategies;
mod tables;
mod types;

pub use case::tell;

//! Answers cases: what the calls on chunks and on segments give, which zones predicates skip, the
//! statistics that a file keeps, and tables of statistics of the old form.
//!
//! A case of chunks is a line `NAME WORD.. = OBJECT`, and each word gets a line of its own. The object says a type
//! (`schema`), and rows of it as a batch of a job (`batch`) or as the hex text of a segment (`bytes`).
//!
//! | word | answer |
//! |---|---|
//! | `rows` | the rows as a reader sees them |
//! | `cells` | the encoding, the type and the cells |
//! | `canon` | the plain form |
//! | `twice` | the rows behind themselves |
//! | `1..3` | the rows from the first place to the second |
//! | `sizes` | how many rows, what is held, and what all rows take |
//! | `fields` | a struct's fields, and which rows are valid |
//! | `lists` | a list's elements, offsets and flags |
//! | `segment`, `dense` | the segment, padded or without padding |
//! | `nullable` | the type where rows may be null |
//! | `storage` | the type that an extension is stored as |
//! | `lengths` | the lengths of a segment's buffers |
//! | `tree` | the same, where the bytes are a segment's tree alone |
//!
//! A case of zones or statistics is a line `NAME WORD GIVEN.. = OBJECT`. The object says the type of a column (`schema`).
//!
//! | word | given | more in the object | answer |
//! |---|---|---|---|
//! | `zones` | | a batch a zone (`batches`), and what is said of zones below | of the table of the zones' records, a line a predicate |
//! | `table` | | a type (`type`) and a batch of it (`table`), and the same | of that table, as it is, the same |
//! | `stats` | the bytes of bounds, names of statistics | `batches` as those of a job; `fails`, the numbers of the source's calls that fail | a line a call of the wrapped source: the rows of a batch, or why there is none; a line a set: what is known of each statistic, or why none are gathered |
//! | `legacy` | names of statistics | `table`, a chunk of the table of these statistics on the type | the aggregates, and a line a zone |
//!
//! Of zones the object says the rows of one (`zone`), the aggregates (`aggregates`; where none are listed, those that are
//! kept of the type by themselves), where it isn't as many as the zones have the rows of the column (`rows`), and
//! predicates (`ask`). A line of the answer has the number of a predicate and a flag a zone, or why there is none.
//!
//! A predicate is a list of its parts, each behind those that it joins: `is_null`, `is_not_null`, `and`, `or`, `not`, and a
//! pair of `eq`, `not_eq`, `lt`, `lt_eq`, `gt` or `gt_eq` and a literal. A literal is null, a truth value, a whole number, a
//! text, or a list: `[]` is the list without elements, and `["00ff"]` bytes as hex text.
#![tactic(auto)]

mod answers;
mod ask;
mod calls;
mod case;
mod files;
mod given;
mod kept;
mod legacy;
mod maps;
mod own;
mod shown;
mod zones;

pub use case::tell;

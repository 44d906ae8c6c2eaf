//! Answers cases: what the calls on layouts give that no command of the program makes.
//!
//! A case is a line `NAME WORD ARGS.. = LAYOUT`, or `NAME WORD ARGS..` where the word asks for no layout. Each line of the
//! answer stands behind the name. What is printed of a layout:
//!
//! - `slots`: the id, the rows and the number of children; of each slot what it is to the layout, its name, the row at
//!   which its child begins, and the place of that child
//! - `copy`: the same of a copy
//! - `slot N`: the same of what stands in the slot, or `nothing`
//! - `names`: the names of the children, the rows at which they begin, and what they are to the layout
//! - `kinds`: the id where it is chunked, whether it is so, whether it is flat, how many segments it has itself, whether
//!   its rows may not be split, and its type
//! - `own`: of a struct how many fields it has; of a list the rows of elements and offsets, whether there is a validity,
//!   the integers of the offsets and the type of the elements; of a dictionary whether all values are referenced; of
//!   zones the rows of each, how many there are and how many aggregates of each; of older zones the last two
//! - `with LEAVES`: the slots of the chunked layout that has these children instead
//! - `present`: how many children can be built
//! - `walk`: the ids of the layout and of all below it
//! - `tree`: the plain text
//! - `lengths FIRST SEGMENT..`: the text with the lengths of buffers, or the fault of a segment
//! - `rows FIRST SEGMENT..`: the rows, or the fault
//! - `viewed`: of a chunked layout that is read from its bytes, what `children` prints, then the places of the children in
//!   the bytes, and of none
//! - `sent`: the same, once another thread had the layout that is read
//! - `again`: the slots of what is read from its bytes, where that has the same bytes
//!
//! Without a layout:
//!
//! - `children TYPE CHILDREN`: each child as a layout of the type, or the name of the refusal, whether its rows may not be
//!   split, and how many they are; then what is past the last
//! - `children_copy TYPE CHILDREN`: the same of a copy
//! - `build ID BYTES TYPE ROWS CHILDREN`: the slots of what the kind builds of the parts and the metadata
//! - `known ID`: whether a session with all kinds knows the id
//! - `register ID ID`: what is found under the second id where the first alone is registered
//! - `scope ID`: of a copy of what layouts are built in, how many ids there are, the place of this one, how many
//!   aggregates are known, and whether unknown kinds and aggregates are kept
//! - `node NODE`: its bytes; then the place of its id, the rows, the segments and how many children are read from them
//! - `metadata ID BYTES`: the bytes of what the kind reads from them
//! - `opened CHUNKS ASKED`: the rows of the first so many chunks of a layout of so many chunks of one row, read from its bytes
//! - `codes TYPE`: the bytes of new metadata of a dictionary whose codes are `u8`, `u16` or `u32`
//!
//! A leaf is `TYPE:ROWS:SEGMENT`, a flat layout of so many rows in the segment. The types are `u8`, `i8?`, `bool` and
//! `utf8`. Bytes are hex text behind an `x`. The layouts:
//!
//! - `flat LEAF`, `flat LEAF BYTES` with an array tree
//! - `chunked ROWS CHILDREN`, of the type `u8`
//! - `struct ROWS TYPE LEAVES`, with one field `a`; `struct?` with a validity in front of it
//! - `list TYPE ELEMENTS OFFSETS`, leaves; `list?` with a validity behind them
//! - `dict VALUES CODES`, leaves
//! - `zoned LEAF ROWS:SEGMENT`, a column and so many zones of one row; `zoned LEAF ROWS:SEGMENT max` with their maxima
//! - `stats LEAF ROWS:SEGMENT`, `stats LEAF ROWS:SEGMENT max`, the same with a table of the older form
//! - `foreign`, four rows of the unknown kind `x.y`; `foreign LAYOUT`, `foreign LAYOUT / LAYOUT` above others
//!
//! Children are one leaf, two, or `nodes NODE..`: nodes of bytes, each of seven rows in segment 3. A node is the place of
//! an id among the ids of all kinds, as `0` of a flat one; `1>0` stands above another.
#![tactic(auto)]

mod answers;
mod case;
mod children;
mod given;
mod layouts;
mod nodes;
mod opened;
mod own;
mod parts;
mod scopes;
mod segments;
mod sessions;
mod shown;
mod spelling;
mod walks;

pub use case::tell;

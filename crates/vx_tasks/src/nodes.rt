//! The nodes whose tasks keep the rules.

ghost use Rattle.vx_tasks.specs.Joins.{JoinsApart};
ghost use Rattle.vx_tasks.specs.Many.{ManyAreGood};
ghost use Rattle.vx_tasks.specs.NodeLaws.{FlatIsGood, RowsAreGood, ChunkedIsGood, BarredIsGood, ColumnsAreGood, MachineKeeps};
ghost use Rattle.vx_tasks.specs.Passing.{PassingIsGood};

/// One chunk, written as one segment.
pub fn flat()
    ensures { FlatIsGood }
{}

/// One child a chunk.
pub fn chunked()
    ensures chunks { ChunkedIsGood }
    ensures barred { BarredIsGood }
{}

/// One child a column, of a struct or a list; a struct without columns has no child.
pub fn columns()
    ensures columns { ColumnsAreGood }
    ensures rows { RowsAreGood }
{}

/// A source on top of its root.
pub fn source()
    ensures { MachineKeeps }
{}

/// A task that appends nothing and hands what it takes, or makes of it, to one child.
pub fn passing()
    ensures { PassingIsGood }
{}

/// One with several children, each named by its number.
pub fn many()
    ensures { ManyAreGood }
{}

/// A task whose joins are above all that its children hold by then is apart from them.
pub fn joins()
    ensures { JoinsApart }
{}

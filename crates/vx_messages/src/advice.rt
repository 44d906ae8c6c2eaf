//! What to do about an answer, by its first line.

/// About a job that is wrong at a key.
pub(crate) fn key_advice(line: &str) -> &'static str {
    match line {
        "bad job at json" =>
            "the input is no JSON, or more than 67,108,864 bytes or 127 levels of it",
        "bad job at job" => "the input is no object, or has a key that docs/JOB.md doesn't list",
        "bad job at strategy" =>
            "this key is missing, or docs/JOB.md doesn't allow its value; `columns` wants a `struct` or a `table` over a struct",
        _ => "this key is missing, or docs/JOB.md doesn't allow its value",
    }
}

/// About a write or a layout that is refused.
pub(crate) fn refusal_advice(line: &str) -> &'static str {
    match line {
        "refused BatchType" => "a batch is of another type than `schema`",
        "refused NotStruct" => "a struct node of `strategy` stands where the type is no struct",
        "refused DuplicateField" => "a struct of `schema` that is split has a field name twice",
        "refused ManyChunks" =>
            "a flat node of `strategy` takes one batch; put `chunked` around it",
        "refused EmptyList" => "a list node of `strategy` takes a batch, and `batches` has none",
        "refused ZoneCut" =>
            "a zoned node of `strategy` takes batches of `zone` rows, of which the last has 1 at least",
        "refused ForbiddenAggregate" =>
            "a zoned node of `strategy` records an aggregate that `aggregates` doesn't list",
        "refused ForbiddenEncoding" => "a batch has an encoding that `encodings` doesn't list",
        "refused TooLarge" =>
            "there are more segments than 32 bits count, or more rows or elements than 64 do",
        "refused SourceFault" | "refused SinkFault" | "refused CompressFault" =>
            "a call failed that `faults` lists",
        _ => layout_advice(line),
    }
}

/// About a layout that is refused.
fn layout_advice(line: &str) -> &'static str {
    match line {
        "refused Grammar" => "`bytes` are no layout's bytes",
        "refused TooDeep" => "the layout is deeper than `depth` allows",
        "refused TooManyNodes" => "the layout has more nodes than `nodes` allows",
        "refused UnknownIndex" => "a node names a place that `layouts` doesn't have",
        "refused Unregistered" =>
            "a node is of a kind that `registered` doesn't list; `allow_unknown` keeps it",
        "refused UnknownAggregate" =>
            "a table has an aggregate that isn't known; `allow_unknown` keeps it",
        "refused NotAList" | "refused NotAStruct" => "`dtype` doesn't fit the layout",
        "refused ChildCount" | "refused RowCount" | "refused SegmentCount" | "refused Metadata" =>
            "a node isn't as its kind must be at its type",
        _ => "docs/JOB.md tells the refusals",
    }
}

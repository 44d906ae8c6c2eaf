//! The builder.

ghost use Rattle.std.specs.Prelude.{map, IsTrue};
ghost use Rattle.vx_model.specs.Words.{all_by};
ghost use Rattle.vx_zone_record_spec.specs.Held.{record_fits};
ghost use Rattle.vx_zone_table.specs.Columns.{held_column, zone_values};

use crate::fill::fill;
use crate::held::{HeldColumn, held_columns};
use crate::order::{drop_null_columns, sort_columns};
use crate::parts::table_of;
use std::alloc::{AllocError, Global};
use vx_aggregate::AggregateFn;
use vx_chunk::Chunk;
use vx_model::{DType, Value};

/// Gathers the records of a column's zones into the zone table: a row a zone, a column an aggregate. Contracts see the
/// aggregates that the column can hold, with the types of their values, and the records.
#[derive(Drop)]
pub struct ZoneTableBuilder {
    pub(crate) columns: Vec<HeldColumn>,
    pub(crate) records: Vec<Vec<Value>>,
    ghost fit: { IsTrue (all_by (record_fits (map held_column columns.items)) (map zone_values records.items)) },
}

impl ZoneTableBuilder {
    ghost use Rattle.std.specs.Prelude.{◌≡◌, ◌<◌, ◌^◌, [], map, length, option_map, IsTrue, IfOk, OnOk, OnErr};
    ghost use Rattle.vx_model.specs.TyView.{ty};
    ghost use Rattle.vx_model.specs.TreeView.{val};
    ghost use Rattle.vx_aggregate_spec.specs.Aggregate.{held_aggregates};
    ghost use Rattle.vx_aggregate.specs.AggregateView.{aggregate as aggregate_of};
    ghost use Rattle.vx_zone_record_spec.specs.Held.{record_fits};
    ghost use Rattle.vx_zone_table.specs.BuilderView.{gathered, shown_table};
    ghost use Rattle.vx_zone_table.specs.Gathered.{with_record, finished};

    /// A builder without a zone, of those of the aggregates that have a state on the column's type.
    pub fn new(
        alloc: Global,
        column: &DType,
        aggregates: &[AggregateFn],
    ) -> Result<ZoneTableBuilder, AllocError>
        ensures { IfOk result (λ b. gathered b ≡ record {
          columns = held_aggregates (map aggregate_of aggregates.now) (ty column.now);
          records = [];
        }) }
    {
        Ok(ZoneTableBuilder {
            columns: held_columns(alloc, column, aggregates)?,
            records: Vec::new(alloc),
        })
    }

    /// Takes the next zone's record, as `vx_zone_record::zone_record` gives it of the aggregates that were kept. Moves
    /// the record, and copies nothing.
    #[tactic(auto, using(crate::proofs::BuilderSteps::push_rules))]
    pub fn push(&mut self, values: Vec<Value>) -> Result<(), AllocError>
        requires { IsTrue (record_fits (gathered self.old).columns (map val values.items)) }
        ensures pushed { OnOk result (gathered self.new ≡ with_record (gathered self.old) (map val values.items)) }
        ensures kept { OnErr result (gathered self.new ≡ gathered self.old) }
    {
        self.records.push(values)?;
        Ok(())
    }

    /// The table: a struct chunk of plain columns in the order of their names, the display texts of the aggregates,
    /// without those that are null in every zone; with it the aggregates of its columns, in their order. None where no
    /// zone or no column is left. Moves each value. Takes time by the values, and by `n log n` of the columns.
    #[tactic(auto, using(crate::proofs::BuilderSteps::finish_rules))]
    pub fn finish(self, alloc: Global) -> Result<Option<(Chunk, Vec<AggregateFn>)>, AllocError>
        ensures table { IfOk result (λ t. option_map shown_table t ≡ finished (gathered self)) }
        ensures few { OnOk result (length (gathered self).records < 2 ^ 64) }
    {
        let ZoneTableBuilder { columns, records } = self;
        let zones = records.len();
        let mut table = fill(alloc, columns, records)?;
        drop_null_columns(&mut table);
        if table.is_empty() {
            return Ok(None);
        }
        sort_columns(&mut table)?;
        Ok(Some(table_of(alloc, table, zones)?))
    }
}

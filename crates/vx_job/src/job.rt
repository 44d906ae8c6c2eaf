//! What the program is asked to write.

ghost use Rattle.std.specs.Prelude.{◌≡◌};
ghost use Rattle.serde_json.specs.View.{view, members_view};
ghost use Rattle.vx_model.specs.TyView.{ty};
ghost use Rattle.vx_strategy.specs.StrategyView.{strategy_data};
ghost use Rattle.vx_json.specs.Members.{has_only};
ghost use Rattle.vx_job.specs.JobParts.{keys};
ghost use Rattle.vx_job.specs.JobText.{job, job_of, job_in, object_of, schema_in, strategy_in, batches_in};
ghost use Rattle.vx_strategy_json.specs.StrategyText.{strategy_of};
ghost use Rattle.vx_json.specs.Views as values;
ghost use Rattle.vx_job.specs.JobView.{Gives, job_view, read_view};

use crate::error::{JobError, Key, at};
use crate::faults::Faults;
use crate::json::read_json;
use crate::options::{Options, read_options};
use serde_json::{Map, Value};
use std::alloc::Global;
use vx_chunk::Chunk;
use vx_chunk_json::{read_batches, read_type};
use vx_json::{JsonError, count, member};
use vx_model::{ArrayContext, DType, Text};
use vx_strategy::Strategy;
use vx_strategy_json::read_strategy;

/// What the program is asked to write, and how.
#[derive(Drop)]
pub struct Job {
    pub schema: DType,
    pub strategy: Strategy,
    /// Each of the schema, or of the type that it names.
    pub batches: Vec<Chunk>,
    /// The picks among the tasks that are ready.
    pub schedule: Vec<u64>,
    pub encodings: ArrayContext,
    /// The ids of the aggregates that may be recorded; nothing: no limit.
    pub aggregates: Option<Vec<Text>>,
    /// Whether a nullable struct stands above.
    pub marked: bool,
    /// The number of the first segment, at most 2^32.
    pub next: u64,
    /// The calls that fail.
    pub faults: Faults,
}

/// The job that the bytes are. Keys are checked in the order of the struct; an unknown key comes before a missing one.
pub fn read_job(alloc: Global, bytes: &[u8]) -> Result<Job, JobError>
    ensures { Gives job_view result (job bytes.now) }
{
    let value = read_json(alloc, bytes)?;
    let job = read_value(alloc, &value);
    drop(value);
    job
}

#[tactic(auto, unfolding(crate::specs::JobText::job_of))]
fn read_value(alloc: Global, value: &Value) -> Result<Job, JobError>
    ensures { Gives job_view result (job_of (view value.now)) }
{
    read_members(alloc, object(value)?)
}

/// The members of an object with a job's keys alone.
#[tactic(auto, unfolding(crate::specs::JobText::object_of))]
fn object(value: &Value) -> Result<&Map<String, Value>, JobError>
    ensures { Gives (λ m. members_view m.now.entries) result (object_of keys (view value.now)) }
{
    match value {
        Value::Object(members) if has_known(members) => Ok(members),
        Value::Object(_) | Value::Null | Value::Bool(_) | Value::Number(_) => Err(JobError::Wrong(
            Key::Job,
        )),
        Value::String(_) | Value::Array(_) => Err(JobError::Wrong(Key::Job)),
    }
}

/// Whether there are no other keys.
#[tactic(auto, using(crate::proofs::JobSteps::key_rules), unfolding(vx_json::specs::Members::has_only))]
fn has_known(members: &Map<String, Value>) -> bool
    ensures { result ≡ has_only keys (members_view members.now.entries) }
{
    let required = count(members, "schema")
        + count(members, "strategy")
        + count(members, "batches");
    let choices = count(members, "schedule")
        + count(members, "encodings")
        + count(members, "aggregates");
    let others = count(members, "marked") + count(members, "next") + count(members, "faults");
    required + choices + others == members.len()
}

#[tactic(auto, unfolding(crate::specs::JobText::job_in))]
fn read_members(alloc: Global, members: &Map<String, Value>) -> Result<Job, JobError>
    ensures { Gives job_view result (job_in (members_view members.now.entries)) }
{
    let schema = schema_in(alloc, members)?;
    match strategy_in(alloc, members) {
        Ok(strategy) => match batches_in(alloc, &schema, members) {
            Ok(batches) => match read_options(alloc, members) {
                Ok(options) => Ok(job_of(schema, strategy, batches, options)),
                Err(error) => {
                    drop((schema, strategy, batches));
                    Err(error)
                }
            },
            Err(error) => {
                drop((schema, strategy));
                Err(error)
            }
        },
        Err(error) => {
            drop(schema);
            Err(error)
        }
    }
}

fn job_of(schema: DType, strategy: Strategy, batches: Vec<Chunk>, options: Options) -> Job
    ensures { job_view result ≡ record { schema = ty schema; strategy = strategy_data strategy; batches = batches.items; options = read_view options } }
{
    Job {
        schema,
        strategy,
        batches,
        schedule: options.schedule,
        encodings: options.encodings,
        aggregates: options.aggregates,
        marked: options.marked,
        next: options.next,
        faults: options.faults,
    }
}

#[tactic(auto, using(crate::proofs::JobSteps::at_rules), unfolding(crate::specs::JobText::schema_in))]
fn schema_in(alloc: Global, members: &Map<String, Value>) -> Result<DType, JobError>
    ensures { Gives ty result (schema_in (members_view members.now.entries)) }
{
    let Some(value) = member(members, "schema") else {
        return Err(JobError::Wrong(Key::Schema));
    };
    at(Key::Schema, read_type(alloc, value))
}

#[tactic(auto, using(crate::proofs::JobSteps::at_rules), unfolding(crate::specs::JobText::strategy_in))]
fn strategy_in(alloc: Global, members: &Map<String, Value>) -> Result<Strategy, JobError>
    ensures { Gives strategy_data result (strategy_in (members_view members.now.entries)) }
{
    let Some(value) = member(members, "strategy") else {
        return Err(JobError::Wrong(Key::Strategy));
    };
    at(Key::Strategy, strategy_from(alloc, value))
}

fn strategy_from(alloc: Global, value: &Value) -> Result<Strategy, JsonError>
    ensures { values.Gives strategy_data result (strategy_of (view value.now)) }
{
    Ok(read_strategy(alloc, value)?)
}

#[tactic(auto, using(crate::proofs::JobSteps::at_rules), unfolding(crate::specs::JobText::batches_in, crate::specs::JobText::batches_of))]
fn batches_in(
    alloc: Global,
    schema: &DType,
    members: &Map<String, Value>,
) -> Result<Vec<Chunk>, JobError>
    ensures { Gives (λ v. v.items) result (batches_in (ty schema.now) (members_view members.now.entries)) }
{
    let Some(value) = member(members, "batches") else {
        return Err(JobError::Wrong(Key::Batches));
    };
    let Some(items) = value.as_array() else {
        return Err(JobError::Wrong(Key::Batches));
    };
    at(Key::Batches, read_batches(alloc, schema, items))
}

//! How a job is written: the keys that have defaults.

ghost use Rattle.serde_json.specs.View.{view, members_view};
ghost use Rattle.vx_job.specs.JobText.{schedule_in, encodings_in, aggregates_in, marked_in, next_in, faults_in, options_in};
ghost use Rattle.vx_job.specs.JobView.{Gives, faults_view, ids_view, read_view};

use crate::error::{JobError, Key, at};
use crate::faults::Faults;
use crate::values::{read_aggregates, read_encodings, read_faults, read_next};
use serde_json::{Map, Value};
use std::alloc::Global;
use vx_encodings::all_encodings;
use vx_json::{member, read_flag, read_numbers};
use vx_model::{ArrayContext, Text};

/// The keys that have defaults.
#[derive(Drop)]
pub(crate) struct Options {
    pub schedule: Vec<u64>,
    pub encodings: ArrayContext,
    pub aggregates: Option<Vec<Text>>,
    pub marked: bool,
    pub next: u64,
    pub faults: Faults,
}

#[tactic(auto, using(crate::proofs::JobSteps::at_rules), unfolding(crate::specs::JobText::schedule_in, crate::specs::JobParts::or_default))]
fn schedule_in(alloc: Global, members: &Map<String, Value>) -> Result<Vec<u64>, JobError>
    ensures { Gives (λ v. v.items) result (schedule_in (members_view members.now.entries)) }
{
    let Some(value) = member(members, "schedule") else {
        return Ok(Vec::new(alloc));
    };
    at(Key::Schedule, read_numbers(alloc, value))
}

#[tactic(auto, using(crate::proofs::JobSteps::at_rules), unfolding(crate::specs::JobText::encodings_in, crate::specs::JobParts::or_default))]
pub(crate) fn encodings_in(
    alloc: Global,
    members: &Map<String, Value>,
) -> Result<ArrayContext, JobError>
    ensures { Gives (λ c. c) result (encodings_in (members_view members.now.entries)) }
{
    let Some(value) = member(members, "encodings") else {
        return Ok(all_encodings(alloc)?);
    };
    at(Key::Encodings, read_encodings(alloc, value))
}

#[tactic(auto, using(crate::proofs::JobSteps::at_rules), unfolding(crate::specs::JobText::aggregates_in, crate::specs::JobParts::or_default))]
fn aggregates_in(alloc: Global, members: &Map<String, Value>) -> Result<Option<Vec<Text>>, JobError>
    ensures { Gives ids_view result (aggregates_in (members_view members.now.entries)) }
{
    let Some(value) = member(members, "aggregates") else {
        return Ok(None);
    };
    at(Key::Aggregates, read_aggregates(alloc, value))
}

#[tactic(auto, using(crate::proofs::JobSteps::at_rules), unfolding(crate::specs::JobText::marked_in, crate::specs::JobParts::or_default))]
fn marked_in(members: &Map<String, Value>) -> Result<bool, JobError>
    ensures { Gives (λ b. b) result (marked_in (members_view members.now.entries)) }
{
    let Some(value) = member(members, "marked") else {
        return Ok(false);
    };
    at(Key::Marked, read_flag(value))
}

#[tactic(auto, using(crate::proofs::JobSteps::at_rules), unfolding(crate::specs::JobText::next_in, crate::specs::JobParts::or_default))]
fn next_in(members: &Map<String, Value>) -> Result<u64, JobError>
    ensures { Gives (λ n. n) result (next_in (members_view members.now.entries)) }
{
    let Some(value) = member(members, "next") else {
        return Ok(0);
    };
    at(Key::Next, read_next(value))
}

#[tactic(auto, using(crate::proofs::JobSteps::at_rules), unfolding(crate::specs::JobText::faults_in, crate::specs::JobParts::or_default))]
fn faults_in(alloc: Global, members: &Map<String, Value>) -> Result<Faults, JobError>
    ensures { Gives faults_view result (faults_in (members_view members.now.entries)) }
{
    let Some(value) = member(members, "faults") else {
        return Ok(Faults {
            source: Vec::new(alloc),
            sink: Vec::new(alloc),
            compress: Vec::new(alloc),
        });
    };
    at(Key::Faults, read_faults(alloc, value))
}

#[tactic(auto, unfolding(crate::specs::JobText::options_in))]
pub(crate) fn read_options(alloc: Global, members: &Map<String, Value>) -> Result<Options, JobError>
    ensures { Gives read_view result (options_in (members_view members.now.entries)) }
{
    Ok(Options {
        schedule: schedule_in(alloc, members)?,
        encodings: encodings_in(alloc, members)?,
        aggregates: aggregates_in(alloc, members)?,
        marked: marked_in(members)?,
        next: next_in(members)?,
        faults: faults_in(alloc, members)?,
    })
}

//! What the command `tree` answers to the bytes of a layout.

ghost use Rattle.std.specs.Prelude.{◌≡◌, ◌≤◌, true, [], map, string_bytes, IfOk};
ghost use Rattle.vx_session.specs.Encodings.{with_kinds};
ghost use Rattle.vx_session.specs.Ids.{aggregate_ids};
ghost use Rattle.vx_layout_tree.specs.declared.error.LayoutError.TheVariants as layout_errors;
ghost use Rattle.vx_layout_tree.specs.ErrorNames.{error_name};
ghost use Rattle.vx_layout_tree.specs.LayoutView.{layout_data};
ghost use Rattle.vx_layout_tree.specs.Views.{Gives};
ghost use Rattle.vx_display.specs.Text.{display_text};
ghost use Rattle.vx_job.specs.TreeText.{tree_job};
ghost use Rattle.vx_job.specs.TreeView.{tree_view};
ghost use Rattle.vx_run.specs.declared.status.Status.TheVariants as statuses;
ghost use Rattle.vx_run.specs.Answers.{IsText};
ghost use Rattle.vx_run.specs.TreeAnswers.{job_layout, refused_line, IsShown, IsTreeAnswer};

use crate::answer::{Answer, bad_job};
use crate::status::Status;
use bytes::Bytes;
use std::alloc::{AllocError, Global};
use vx_aggregate::AggregateFn;
use vx_display::LayoutDisplay;
use vx_job::{JobError, TreeJob, read_tree_job};
use vx_layout_codec::layout_from_flatbuffer_with_options;
use vx_layout_tree::{Layout, LayoutError};
use vx_model::Text;
use vx_session::{LayoutEncoding, LayoutSession, Session};

/// The answer to the bytes of an input.
pub(crate) fn tree_answer(alloc: Global, bytes: &[u8]) -> Result<Answer, AllocError>
    ensures { IfOk result (λ a. IsTreeAnswer (tree_job bytes.now) a.status (string_bytes a.text)) }
{
    match read_tree_job(alloc, bytes) {
        Ok(job) => show(alloc, job),
        Err(JobError::Wrong(key)) => bad_job(alloc, key),
        Err(JobError::OutOfMemory) => Err(AllocError),
    }
}

/// Reads the layout, and shows its tree.
fn show(alloc: Global, job: TreeJob) -> Result<Answer, AllocError>
    requires { job.options.limits.depth ≤ 1024 }
    ensures { IfOk result (λ a. IsShown (job_layout (tree_view job)) a.status (string_bytes a.text)) }
{
    match read_layout(alloc, job) {
        Ok(layout) => {
            let answer = shown(alloc, &layout);
            drop(layout);
            answer
        }
        Err(LayoutError::OutOfMemory) => Err(AllocError),
        Err(error) => {
            let answer = refused(alloc, &error);
            drop(error);
            answer
        }
    }
}

/// The layout that the job's bytes are.
fn read_layout(alloc: Global, job: TreeJob) -> Result<Layout, LayoutError>
    requires { job.options.limits.depth ≤ 1024 }
    ensures { Gives layout_data result (job_layout (tree_view job)) }
{
    let options = job.options;
    let Ok(session) = session(alloc, options.registered, options.allow_unknown) else {
        drop(job.dtype);
        return Err(LayoutError::OutOfMemory);
    };
    let Ok(flatbuffer) = Bytes::from_vec(job.bytes) else {
        drop(job.dtype);
        return Err(LayoutError::OutOfMemory);
    };
    let layout = layout_from_flatbuffer_with_options(
        alloc,
        flatbuffer,
        &job.dtype,
        &job.layouts,
        &options.encodings,
        &session,
        options.limits,
        options.allow_unknown,
    );
    drop(job.dtype);
    layout
}

/// A session of these kinds and all aggregates.
fn session(
    alloc: Global,
    registered: Vec<LayoutEncoding>,
    allow_unknown: bool,
) -> Result<Session, AllocError>
    ensures kinds { IfOk result (λ s. s.layouts ≡ with_kinds registered.items []) }
    ensures aggregates { IfOk result (λ s. s.aggregates.items ≡ aggregate_ids) }
    ensures allows { IfOk result (λ s. s.allow_unknown ≡ allow_unknown) }
{
    let mut layouts = LayoutSession::empty(alloc);
    layouts.register_many(registered)?;
    let aggregates = aggregates(alloc)?;
    Ok(Session {
        layouts,
        aggregates,
        allow_unknown,
    })
}

/// The ids of all aggregates.
fn aggregates(alloc: Global) -> Result<Vec<Text>, AllocError>
    ensures { IfOk result (λ v. v.items ≡ aggregate_ids) }
{
    texts(alloc, &AggregateFn::IDS)
}

#[tactic(auto, using(crate::proofs::TreeSteps::copy_rules))]
fn texts(alloc: Global, names: &[&str]) -> Result<Vec<Text>, AllocError>
    ensures { IfOk result (λ v. v.items ≡ map (λ n. n.now) names.now) }
{
    let mut texts = Vec::with_capacity(alloc, names.len())?;
    for name in names {
        texts.push(Text::from_str(alloc, name)?)?;
    }
    Ok(texts)
}

/// The verbose tree.
fn shown(alloc: Global, layout: &Layout) -> Result<Answer, AllocError>
    ensures { IfOk result (λ a. IsText statuses.Done (display_text true (layout_data layout.now)) a.status (string_bytes a.text)) }
{
    let tree = layout.display_tree_verbose(alloc, true)?;
    Ok(Answer {
        status: Status::Done,
        text: String::from_str(alloc, tree.as_str())?,
    })
}

#[tactic(auto, using(crate::proofs::RunSteps::text_rules))]
fn refused(alloc: Global, error: &LayoutError) -> Result<Answer, AllocError>
    ensures { IfOk result (λ a. IsText statuses.Refused (refused_line (error_name error.now)) a.status (string_bytes a.text)) }
{
    let name = error.name();
    Ok(Answer {
        status: Status::Refused,
        text: format!(in alloc; "refused {name}\n")?,
    })
}

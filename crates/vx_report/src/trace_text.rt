//! Steps as lines.

ghost use Rattle.std.specs.Prelude.{◌≡◌, ◌++◌, string_bytes, OnOk};
ghost use Rattle.vx_report.specs.TraceText.{action_name, dot_if, path_text, step_line, step_lines};

use std::alloc::AllocError;
use vx_write_answer::{ActionKind, Step};

/// A line a step.
#[tactic(auto, using(crate::proofs::TraceSteps::trace_rules))]
pub(crate) fn push_steps(out: &mut String, steps: &[Step]) -> Result<(), AllocError>
    ensures { OnOk result (string_bytes out.new ≡ string_bytes out.old ++ step_lines steps.now) }
{
    for i in 0..steps.len() {
        push_step(out, &steps[i])?;
    }
    Ok(())
}

#[tactic(auto, using(crate::proofs::TraceSteps::trace_rules))]
fn push_step(out: &mut String, step: &Step) -> Result<(), AllocError>
    ensures { OnOk result (string_bytes out.new ≡ string_bytes out.old ++ step_line step.now) }
{
    write!(out, "{} {} ", step.ready, step.picked)?;
    push_path(out, step.task.as_slice())?;
    out.push_str(" ")?;
    out.push_str(action_name(step.action))?;
    out.push_str("\n")
}

/// The numbers with dots between them.
#[tactic(auto, using(crate::proofs::TraceSteps::trace_rules))]
fn push_path(out: &mut String, path: &[u64]) -> Result<(), AllocError>
    ensures { OnOk result (string_bytes out.new ≡ string_bytes out.old ++ path_text path.now) }
{
    for i in 0..path.len() {
        push_dot(out, i > 0)?;
        write!(out, "{}", path[i])?;
    }
    Ok(())
}

fn push_dot(out: &mut String, later: bool) -> Result<(), AllocError>
    ensures { OnOk result (string_bytes out.new ≡ string_bytes out.old ++ dot_if later) }
{
    if later {
        out.push_str(".")?;
    }
    Ok(())
}

fn action_name(action: ActionKind) -> &'static str
    ensures { result.now ≡ action_name action }
{
    match action {
        ActionKind::Batch => "batch",
        ActionKind::End => "end",
        ActionKind::Take => "take",
        ActionKind::Put => "put",
        ActionKind::Close => "close",
        ActionKind::Call => "call",
        ActionKind::Append => "append",
        ActionKind::Join => "join",
    }
}

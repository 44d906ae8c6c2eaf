use crate::layout_context::copy_ids;
use std::alloc::AllocError;
use vx_model::{ArrayContext, Text};

/// What a kind's build needs besides the parts.
#[derive(Debug, Drop)]
pub struct LayoutBuildContext {
    /// The encodings that segments name by their places.
    pub array_ctx: ArrayContext,
    /// The ids of the aggregates that are known, where there is one of the id.
    pub aggregates: Vec<Text>,
    /// Whether a table of other aggregates is kept as it is found.
    pub allow_unknown: bool,
}

impl Clone for LayoutBuildContext {
    ghost use Rattle.std.specs.Prelude.{◌≡◌};
    ghost use Rattle.vx_session.specs.Views.{context};

    ghost is_clone = { λ c copy. context copy ≡ context c };

    fn clone(&self) -> Result<LayoutBuildContext, AllocError> {
        Ok(LayoutBuildContext {
            array_ctx: self.array_ctx.clone()?,
            aggregates: copy_ids(&self.aggregates)?,
            allow_unknown: self.allow_unknown,
        })
    }
}

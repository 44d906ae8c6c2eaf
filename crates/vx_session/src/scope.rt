use crate::build_context::LayoutBuildContext;
use crate::layout_context::LayoutContext;
use crate::registry::LayoutRegistry;
use crate::session::Session;
use std::alloc::AllocError;
use vx_model::ArrayContext;

/// What the nodes of a layout are built in.
#[derive(Debug, Drop)]
pub struct Scope {
    /// The ids that nodes name by their places.
    pub ids: LayoutContext,
    pub registry: LayoutRegistry,
    pub context: LayoutBuildContext,
    /// Whether nodes of ids that aren't registered are kept as they are found.
    pub allow_unknown: bool,
}

impl Scope {
    ghost use Rattle.std.specs.Prelude.{◌≡◌, IfOk};
    ghost use Rattle.vx_session.specs.Views.{scope_of, scope_in};

    /// Of copies of what the session knows. The session's own leave is for aggregates alone.
    pub fn new(
        ids: &LayoutContext,
        array_ctx: &ArrayContext,
        session: &Session,
        allow_unknown: bool,
    ) -> Result<Scope, AllocError>
        ensures { IfOk result (λ s. scope_of s ≡ scope_in ids.now array_ctx.now session.now allow_unknown) }
    {
        let context = session.build_context(array_ctx)?;
        Ok(Scope {
            ids: ids.clone()?,
            registry: session.layouts.registry().clone()?,
            context,
            allow_unknown,
        })
    }
}

impl Clone for Scope {
    ghost use Rattle.std.specs.Prelude.{◌≡◌};
    ghost use Rattle.vx_session.specs.Views.{scope_of};

    ghost is_clone = { λ s copy. scope_of copy ≡ scope_of s };

    fn clone(&self) -> Result<Scope, AllocError> {
        Ok(Scope {
            ids: self.ids.clone()?,
            registry: self.registry.clone()?,
            context: self.context.clone()?,
            allow_unknown: self.allow_unknown,
        })
    }
}

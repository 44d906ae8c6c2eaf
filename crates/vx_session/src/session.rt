ghost use Rattle.std.specs.Prelude.{◌≡◌, IfOk};
ghost use Rattle.vx_session.specs.Encodings.{with_kinds};

use crate::build_context::LayoutBuildContext;
use crate::encoding::LayoutEncoding;
use crate::layout_context::copy_ids;
use crate::registry::LayoutRegistry;
use std::alloc::{AllocError, Global};
use std::marker::Model;
use vx_model::{ArrayContext, Text};

/// The kinds of layouts that a program registers.
#[derive(Debug, Drop)]
pub struct LayoutSession {
    registry: LayoutRegistry,
}

impl Model for LayoutSession {
    ghost use Rattle.std.specs.Prelude.{List};
    ghost use Rattle.vx_session.specs.declared.encoding.LayoutEncoding.{LayoutEncoding};

    ghost Value = { List LayoutEncoding };

    ghost view = { λ s. s.registry };
}

impl LayoutSession {
    ghost use Rattle.std.specs.Prelude.{◌≡◌, [], IfOk, IfErr, OnOk};
    ghost use Rattle.vx_session.specs.Encodings.{all_encodings, with_kind, with_kinds};

    /// All kinds.
    pub fn default(alloc: Global) -> Result<LayoutSession, AllocError>
        ensures { IfOk result (λ s. s ≡ all_encodings) }
    {
        let none = LayoutRegistry::new(alloc);
        let registry = with_layouts(&none, &LayoutEncoding::ALL)?;
        Ok(LayoutSession { registry })
    }

    /// No kind.
    pub fn empty(alloc: Global) -> LayoutSession
        ensures { result ≡ [] }
    {
        LayoutSession {
            registry: LayoutRegistry::new(alloc),
        }
    }

    /// In the place of one that has the same id. Nothing changes where memory runs out.
    pub fn register(&mut self, layout: LayoutEncoding) -> Result<(), AllocError>
        ensures done { OnOk result (self.new ≡ with_kind layout self.old) }
        ensures kept { IfErr result (λ e. self.new ≡ self.old) }
    {
        self.registry.register(layout)
    }

    /// Each in the place of one that has the same id. Nothing changes where memory runs out.
    pub fn register_many(&mut self, layouts: Vec<LayoutEncoding>) -> Result<(), AllocError>
        ensures done { OnOk result (self.new ≡ with_kinds layouts.items self.old) }
        ensures kept { IfErr result (λ e. self.new ≡ self.old) }
    {
        let registry = with_layouts(&self.registry, &layouts)?;
        self.registry = registry;
        Ok(())
    }

    /// The kinds that the session knows, by their ids.
    pub fn registry(&self) -> &LayoutRegistry
        ensures { result.now ≡ self.now }
    {
        &self.registry
    }
}

#[tactic(auto, using(crate::proofs::Lists::kind_rules))]
fn with_layouts(
    registry: &LayoutRegistry,
    layouts: &[LayoutEncoding],
) -> Result<LayoutRegistry, AllocError>
    ensures { IfOk result (λ r. r ≡ with_kinds layouts.now registry.now) }
{
    let mut more = registry.clone()?;
    for layout in layouts {
        more.register(*layout)?;
    }
    Ok(more)
}

/// What a program knows when it reads layouts.
#[derive(Debug, Drop)]
pub struct Session {
    pub layouts: LayoutSession,
    /// The ids of the aggregates that are known, where there is one of the id.
    pub aggregates: Vec<Text>,
    /// Whether a table of other aggregates is kept as it is found.
    pub allow_unknown: bool,
}

impl Session {
    ghost use Rattle.std.specs.Prelude.{◌≡◌, IfOk};
    ghost use Rattle.vx_session.specs.Views.{context, context_in};

    /// What builds need of the session, with these encodings.
    pub fn build_context(&self, array_ctx: &ArrayContext) -> Result<LayoutBuildContext, AllocError>
        ensures { IfOk result (λ c. context c ≡ context_in array_ctx.now self.now) }
    {
        Ok(LayoutBuildContext {
            array_ctx: array_ctx.clone()?,
            aggregates: copy_ids(&self.aggregates)?,
            allow_unknown: self.allow_unknown,
        })
    }
}

/// The part of a session that is of layouts.
pub trait LayoutSessionExt {
    ghost use Rattle.std.specs.Prelude.{◌≡◌, List};
    ghost use Rattle.vx_session.specs.declared.encoding.LayoutEncoding.{LayoutEncoding};

    // The kinds that are registered, in their order.
    ghost kinds: { Self → List LayoutEncoding };

    fn layouts(&self) -> &LayoutSession
        ensures { result.now ≡ kinds self.now };
}

impl LayoutSessionExt for Session {
    ghost kinds = { λ s. s.layouts };

    fn layouts(&self) -> &LayoutSession {
        &self.layouts
    }
}

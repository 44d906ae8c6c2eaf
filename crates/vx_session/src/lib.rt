//! What layouts are built in when they are read from bytes: the kinds, ids and aggregates that are known.
#![tactic(auto)]

mod aggregates;
mod build_context;
mod encoding;
mod layout_context;
mod registry;
mod scope;
mod session;

pub use aggregates::AggregatesError;
pub use build_context::LayoutBuildContext;
pub use encoding::{LayoutEncoding, LayoutEncodingRef, LayoutVTablePlugin, LayoutVTableRef};
pub use layout_context::LayoutContext;
pub use registry::LayoutRegistry;
pub use scope::Scope;
pub use session::{LayoutSession, LayoutSessionExt, Session};

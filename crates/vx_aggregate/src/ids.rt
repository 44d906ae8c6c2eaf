//! The ids of aggregates, each written once.

pub(crate) const MAX: &str = "vortex.max";

pub(crate) const MIN: &str = "vortex.min";

pub(crate) const BOUNDED_MAX: &str = "vortex.bounded_max";

pub(crate) const BOUNDED_MIN: &str = "vortex.bounded_min";

pub(crate) const NULL_COUNT: &str = "vortex.null_count";

pub(crate) const SUM: &str = "vortex.sum";

pub(crate) const BLOOM: &str = "vortex.bloom_filter.sbbf";

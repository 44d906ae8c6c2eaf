//! Plans of small streams, computed with the bytes of their segments, and at their edges; what rules send, chunk by chunk.
#![tactic(auto)]

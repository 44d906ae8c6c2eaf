//! Split block Bloom filters as data: masks, filters, their bytes, and which values they take. Definitions and laws alone.
#![tactic(auto)]

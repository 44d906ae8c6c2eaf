//! The setting of writes: segments by their grammar, the hash of filters, and what a context and a compressor tell.
//! The function here has an empty body; its contract is a law.
#![tactic(auto)]

ghost use Rattle.vx_setting.specs.Setting.{RealKeeps, RealHashIsSmall};

/// Where no encoding is listed twice and images keep the rows of whole chunks, the setting keeps what plans' laws ask for.
pub fn real_settings_keep()
    ensures keeps { RealKeeps }
    ensures hash { RealHashIsSmall }
{}

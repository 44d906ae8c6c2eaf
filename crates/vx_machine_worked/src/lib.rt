//! Tasks of small writes, computed: their scripts, what they hold, and whole traces under schedules.
#![tactic(auto)]

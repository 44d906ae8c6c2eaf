//! Rules that react to one chunk at a time, and what they make of a stream.
//! Each function here has an empty body; its contract is a law, proved for every stream.
#![tactic(auto)]

ghost use Rattle.vx_react.specs.Statements.{SentAppends, RegroupingReacts, CollectingReacts, RunsReact, CutsAreCounted, RunsAreNumbered, StructsReact, ListsReact, ListsAreCounted};

mod place;

pub use place::Place;

/// What goes to a place, of two lists joined.
pub fn sent_appends()
    ensures { SentAppends }
{}

/// What a rule of regrouping gives, chunk by chunk, is the regrouped stream.
pub fn regrouping_reacts()
    ensures { RegroupingReacts }
{}

/// What collecting gives is the collected stream.
pub fn collecting_reacts()
    ensures { CollectingReacts }
{}

/// What the cutter gives, chunk by chunk, are the codes and the values of the runs.
pub fn runs_react()
    ensures { RunsReact }
{}

/// How many outputs the cutter gives at a chunk.
pub fn cuts_are_counted()
    ensures { CutsAreCounted }
{}

/// The number that the cutter keeps is that of the runs that have ended.
pub fn runs_are_numbered()
    ensures { RunsAreNumbered }
{}

/// What the splitter of structs gives, chunk by chunk, are the columns of the stream.
pub fn structs_react()
    ensures { StructsReact }
{}

/// What the splitter of lists gives, chunk by chunk, are the columns of the stream.
pub fn lists_react()
    ensures { ListsReact }
{}

/// What the splitter of lists keeps is told by the chunks so far.
pub fn lists_are_counted()
    ensures { ListsAreCounted }
{}

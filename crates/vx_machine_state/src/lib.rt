//! The tasks of the step machine as the program keeps them, in plain data: what they have in mind and in their queues, and what
//! each act does to them.
//! The function here has an empty body; its contract is a law.
#![tactic(auto)]

ghost use Rattle.vx_machine_state.specs.Places.{StepsAreReady, OwnPlace, KidPlace, RestPlace};

/// How many are ready, and where the steps of a task, of its children and of its siblings stand among all.
pub fn places()
    ensures ready { StepsAreReady }
    ensures own { OwnPlace }
    ensures kid { KidPlace }
    ensures rest { RestPlace }
{}

//! The array trees of what was written.
//! The function here has an empty body; its contract is a law, proved for every plan.
#![tactic(auto)]

ghost use Rattle.vx_array_tree_laws.specs.Statements.{ArrayTrees};

/// Each flat node has an array tree exactly where its strategy's node inlines, and it is the tree part of its segment.
pub fn array_trees_are_of_segments()
    ensures { ArrayTrees }
{}

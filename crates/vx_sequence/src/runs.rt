//! What holds over any list of calls on a universe: laws, with no code.
ghost use Rattle.std.specs.Prelude.{ℕ, List, ◌⊎◌, IsTrue};
ghost use Rattle.std.specs.FinMap as map;
ghost use Rattle.vx_path.specs.Path.{Eof, path_lt, inside, next};
ghost use Rattle.vx_sequence.specs.Part.{CanPart, left_of, parted};
ghost use Rattle.vx_sequence.specs.Universe.{Active, IsActive, IsLeast, IsUniverse, only};
ghost use Rattle.vx_sequence.specs.Calls.{Call, MayCall, after, MayRun, after_all, IsAbove};

/// Calls keep the two rules of a universe.
pub fn rules_stay()
    ensures { (u : Active) (calls : List Call) → IsUniverse u → MayRun u calls → IsUniverse (after_all u calls) }
{}

/// What a call makes active is greater than a path that was active just before. So once a path is least, no
/// smaller one is ever made.
pub fn none_is_smaller()
    ensures made { (u : Active) (c : Call) (p : List ℕ) → MayCall u c → IsActive (after u c) p → IsActive u p ⊎ IsAbove u p }
    ensures least { (u : Active) (calls : List Call) (p : List ℕ) → MayRun u calls → IsLeast u p → IsLeast (after_all u calls) p }
{}

/// Whatever is done with the pointer that is split off and with the rest, and with all that is made from them:
/// each path of the first is below each of the second.
pub fn split_is_in_order()
    ensures { (e : Eof) (first second : List Call) (p q : List ℕ)
        → MayRun (only (inside e)) first → MayRun (only (next e)) second
        → IsActive (after_all (only (inside e)) first) p → IsActive (after_all (only (next e)) second) q → IsTrue (path_lt p q) }
{}

/// A part of a universe, and what stays, keep its rules.
pub fn part_is_a_universe()
    ensures left { (u : Active) (ps : List (List ℕ)) → IsUniverse u → IsUniverse (left_of u ps) }
    ensures part { (u : Active) (ps : List (List ℕ)) → IsUniverse u → CanPart u ps → IsUniverse (parted u map.empty ps) }
{}

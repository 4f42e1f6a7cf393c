#![tactic(auto)]
//! The limits of a text are limits of its tree. This is a law, which no code runs.

ghost use Rattle.std.specs.Prelude.{ℕ, List};
ghost use Rattle.pipe_tree.specs.Tree.{Declaration};
ghost use Rattle.pipe_tree.specs.Faults.{IsText};
ghost use Rattle.pipe_tree.specs.Sizes.{KeepsLimits};

/// A tree that has a text has at most 4096 nodes, 64 stages, 64 parameters and 16 tables. Each of its functions has at most 16
/// cases.
pub fn trees_keep_limits()
    ensures { (bytes : List ℕ) (tree : List Declaration) → IsText bytes tree → KeepsLimits tree }
{}

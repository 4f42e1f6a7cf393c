#![tactic(auto)]
//! A program has exactly one first fault, or none. This is a law, which no code runs.

ghost use Rattle.std.specs.Prelude.{◌≡◌, ◌≢◌, List};
ghost use Rattle.pipe_tree.specs.declared.tree.Tree.{Tree as TreeType};
ghost use Rattle.pipe_tree.specs.Tree.{Declaration};
ghost use Rattle.pipe_tree.specs.Content.{content};
ghost use Rattle.pipe_checks.specs.declared.checked.Checked.{Checked as CheckedType};
ghost use Rattle.pipe_checks.specs.Checking.{IsFault, IsCheckedOf};

use crate::fault::CheckFault;

/// No program has two first faults, and no checked program has a fault. Memory may run out for any.
pub fn check_faults_are_determined()
    ensures one { (ds : List Declaration) (a b : CheckFault) → IsFault ds a → IsFault ds b
        → a ≢ CheckFault.Memory → b ≢ CheckFault.Memory → a ≡ b }
    ensures none { (tree : TreeType) (checked : CheckedType) (fault : CheckFault) → IsCheckedOf tree checked
        → IsFault (content tree) fault → fault ≡ CheckFault.Memory }
{}

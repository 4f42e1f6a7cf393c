#![tactic(auto)]
//! At the values of its parameters a program either has exactly one fault or is in bounds. This is a law, which no code runs.

ghost use Rattle.std.specs.Prelude.{◌≡◌, ◌≢◌, List};
ghost use Rattle.pipe_tree.specs.Tree.{Declaration};
ghost use Rattle.pipe_bounds.specs.declared.params.Setting.{Setting as SettingType};
ghost use Rattle.pipe_bounds.specs.InBounds.{IsBoundFault, IsInBounds};

use crate::fault::BoundFault;

/// No program has two faults at the same values, and no program that is in bounds has a fault. Memory may run out for any.
pub fn bound_faults_are_determined()
    ensures one { (ss : List SettingType) (ds : List Declaration) (f g : BoundFault)
        → IsBoundFault ss ds f → IsBoundFault ss ds g
        → f ≢ BoundFault.Memory → g ≢ BoundFault.Memory → f ≡ g }
    ensures none { (ss : List SettingType) (ds : List Declaration) (f : BoundFault) → IsInBounds ss ds
        → IsBoundFault ss ds f → f ≡ BoundFault.Memory }
{}

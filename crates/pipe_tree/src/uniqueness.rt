#![tactic(auto)]
//! A text has one tree, and other bytes have one fault. These are laws, which no code runs.

ghost use Rattle.std.specs.Prelude.{◌≡◌, ◌≢◌, ℕ, List};
ghost use Rattle.pipe_tree.specs.Tree.{Declaration};
ghost use Rattle.pipe_tree.specs.Faults.{IsText, IsFault};

use crate::fault::ParseFault;

/// No text has two trees.
pub fn texts_have_one_tree()
    ensures { (bytes : List ℕ) (a b : List Declaration) → IsText bytes a → IsText bytes b → a ≡ b }
{}

/// No bytes have two faults, and no text has a fault. Memory may run out for any.
pub fn bytes_have_at_most_one_parse_fault()
    ensures one { (bytes : List ℕ) (a b : ParseFault) → IsFault bytes a → IsFault bytes b
        → a ≢ ParseFault.Memory → b ≢ ParseFault.Memory → a ≡ b }
    ensures none { (bytes : List ℕ) (tree : List Declaration) (fault : ParseFault) → IsText bytes tree
        → IsFault bytes fault → fault ≡ ParseFault.Memory }
{}

#![tactic(auto)]
//! Laws of canonical texts, which no code runs.

ghost use Rattle.std.specs.Prelude.{◌≡◌, ℕ, ◌≤◌, ◌↔◌, List, length};
ghost use Rattle.pipe_tokens.specs.Lexing.{tokens_of};
ghost use Rattle.pipe_tokens.specs.Subsequence.{IsSubsequence};
ghost use Rattle.pipe_tree.specs.Faults.{IsText};
ghost use Rattle.pipe_tree.specs.Limits.{CountsSoFar};
ghost use Rattle.pipe_tree.specs.Tree.{Declaration};
ghost use Rattle.pipe_print.specs.Canonical.{canonical_tokens, canonical};
ghost use Rattle.pipe_print.specs.Within.{IsTextWithin};

/// If a tree has a text, its canonical text is one too, and keeps all limits that the text keeps. All texts of a tree contain the
/// canonical tokens in their order, with others between them. None is shorter than the canonical text.
pub fn canonical_text_is_shortest_of_its_tree()
    ensures text { (bytes : List ℕ) (tree : List Declaration) → IsText bytes tree
        → IsText (canonical tree) tree }
    ensures fewest_tokens { (bytes : List ℕ) (tree : List Declaration) → IsText bytes tree
        → IsSubsequence (canonical_tokens tree) (tokens_of bytes) }
    ensures no_longer { (bytes : List ℕ) (tree : List Declaration) → IsText bytes tree
        → length (canonical tree) ≤ length bytes }
    // It is not deeper, and has as many nodes.
    ensures no_deeper { (levels : ℕ) (counts : CountsSoFar) (bytes : List ℕ) (tree : List Declaration)
        → IsTextWithin levels counts bytes tree → IsTextWithin levels counts (canonical tree) tree }
{}

/// The canonical text of a tree is a text of no other tree. So two trees that have texts have the same canonical text exactly
/// where they are equal.
pub fn canonical_text_is_of_one_tree()
    ensures alone { (bytes : List ℕ) (tree other : List Declaration) → IsText bytes tree
        → IsText (canonical tree) other → other ≡ tree }
    ensures apart { (bytes bytes' : List ℕ) (tree tree' : List Declaration)
        → IsText bytes tree → IsText bytes' tree' → (canonical tree ≡ canonical tree')
        ↔ (tree ≡ tree') }
{}

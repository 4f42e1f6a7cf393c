//! Laws of the format, which no code runs.
ghost use Rattle.std.specs.Prelude.{◌≡◌, ℕ, List};
ghost use Rattle.netpbm.specs.Grammar.{IsPicture};
ghost use Rattle.netpbm.specs.Image.{Image, IsImage};
ghost use Rattle.netpbm.specs.Spelling.{spelling};

/// No bytes spell two pictures.
pub fn no_bytes_spell_two_pictures()
    ensures { (bytes : List ℕ) (p q : Image) → IsPicture bytes p → IsPicture bytes q → p ≡ q }
{}

/// The written form of a picture spells it and no other one, and no two pictures have one.
pub fn raw_spelling_identifies_the_picture()
    ensures spelled { (p : Image) → IsImage p → IsPicture (spelling p) p }
    ensures alone { (p q : Image) → IsImage p → IsPicture (spelling p) q → q ≡ p }
    ensures apart { (p q : Image) → IsImage p → IsImage q → spelling p ≡ spelling q → p ≡ q }
{}

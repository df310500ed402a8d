// What the definitions of lines and words give. Each function has an empty body, and its contract is the law.
ghost use Rattle.std.specs.Prelude.{◌≡◌, ℕ, List, ◌∷◌, ◌++◌};
ghost use Rattle.std.specs.List.{All, join_with_byte};
ghost use Rattle.op_num.specs.CutLines.{words, HasNoLf, HasNoSpace};

/// A text begins with one line at most: two that end at an LF and have none in them are the same, and so is what
/// stands behind them.
pub fn lines_are_one()
    ensures { (line other rest more : List ℕ) → HasNoLf line → HasNoLf other → line ++ 10 ∷ rest ≡ other ++ 10 ∷ more
        → (line ≡ other) × (rest ≡ more) }
{}

/// The words of a line with single spaces between them are the line, and none of them has a space.
pub fn words_are_joined()
    ensures joined { (line : List ℕ) → join_with_byte 32 (words line) ≡ line }
    ensures spaces { (line : List ℕ) → All HasNoSpace (words line) }
{}

/// One or more words without spaces, with single spaces between them, are the words of that line.
pub fn words_are_one()
    ensures { (w : List ℕ) (ws : List (List ℕ)) → HasNoSpace w → All HasNoSpace ws
        → words (join_with_byte 32 (w ∷ ws)) ≡ w ∷ ws }
{}

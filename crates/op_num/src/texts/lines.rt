// Written text.
ghost use Rattle.std.specs.Prelude.{◌≡◌, ℕ, List};
ghost use Rattle.op_num.specs.Cut.{words};
ghost use Rattle.op_num.specs.Lines.{AreLines, placed, text_of_lines};

/// What is written line by line is cut into the same tokens, each on its line.
pub fn lines_are_cut()
    ensures { (line : ℕ) (lines : List (List (List ℕ))) → AreLines lines → words line (text_of_lines lines) ≡ placed line lines }
{}

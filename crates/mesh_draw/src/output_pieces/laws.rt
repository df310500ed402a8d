// Laws of pieces, each as the contract of a function that does nothing.

ghost use Rattle.mesh_draw.specs.Laws.{PiecesAreOne, RunsHavePieces};

/// A law: an output has one piece at most that is the printed dat.
pub fn pieces_are_one()
    ensures { PiecesAreOne }
{}

/// A law: where the run of a program that fits comes to the item that prints the dat, what it prints there is the piece
/// of its output.
pub fn runs_have_pieces()
    ensures { RunsHavePieces }
{
    mesh_decl::declarations_hold();
    run_model::sequential_run::runs_are_one();
}

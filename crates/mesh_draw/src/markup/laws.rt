// What the definitions of trees give. Each function has an empty body, and its contract is the law.
ghost use Rattle.std.specs.Prelude.{◌≡◌, List};
ghost use Rattle.std.specs.List.{flat_map};
ghost use Rattle.mesh_draw.specs.Tree.{Node, nodes_of, printed, all_printed};

/// Nodes print one behind another.
pub fn nodes_print_in_order()
    ensures { (ns : List Node) → all_printed (nodes_of ns) ≡ flat_map printed ns }
{}

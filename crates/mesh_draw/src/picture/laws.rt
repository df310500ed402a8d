// What the definitions of pictures give. Each function has an empty body, and its contract is the law.
ghost use Rattle.std.specs.Prelude.{ℕ, ℤ, ◌*◌, ◌<◌, ◌≤◌, List};
ghost use Rattle.mesh_draw.specs.declared.picture.frame.Frame.{Frame as Place};
ghost use Rattle.mesh_draw.specs.Frame.{IsFrame, span, from_left, from_top};

/// All nodes lie within the picture: none is further from the left, or from the top, than the picture is wide, or high.
pub fn points_lie_within()
    ensures { (nodes node : ℕ) (values : List ℤ) (f : Place) → IsFrame nodes values f → node < nodes
        → (from_left f values node ≤ 50 * span f.across) × (from_top f values node ≤ 50 * span f.up) }
{}

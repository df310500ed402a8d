// What the definitions of plans give. Each function has an empty body, and its contract is the law.
ghost use Rattle.std.specs.Prelude.{◌≡◌, ◌<◌, ◌↔◌, ℕ, true, List, [], ◌∷◌, ◌++◌, length};
ghost use Rattle.op_num.specs.Lines.{line_of};
ghost use Rattle.lemmas.specs.Below.{listed};
ghost use Rattle.mesh_decl.specs.declared.owners.Owners.{Owners};
ghost use Rattle.mesh_decl.specs.declared.owners.Perms.{Perms};
ghost use Rattle.mesh_decl.specs.Owners.{AreOwners, ArePerms};
ghost use Rattle.mesh_decl.specs.Mesh.{MeshValue, dat_count, set_count, set_size};
ghost use Rattle.local_mesh.specs.Halo.{owns, imports};
ghost use Rattle.local_mesh.specs.Halos.{AreHalos};
ghost use Rattle.local_mesh.specs.declared.halo_lists.types.Halos.{Halos};
ghost use Rattle.local_mesh.specs.declared.types.RankMesh.{RankMesh};
ghost use Rattle.local_mesh.specs.LocalMesh.{AreRankMeshes};
ghost use Rattle.schedule_steps.specs.Outline.{Outline};
ghost use Rattle.schedule_steps.specs.Peaks.{step_count};
ghost use Rattle.schedule_steps.specs.Standard.{standard};
ghost use Rattle.bound_program.specs.Values.{BoundValue};
ghost use Rattle.bound_program.specs.Fits.{Fits};
ghost use Rattle.loop_plan.specs.Values.{PlanValue, item_plan};
ghost use Rattle.loop_plan.specs.Needs.{exchanged_at, IsInRange, AreExchanges};
ghost use Rattle.loop_plan.specs.Pairs.{sets_of, imports_from};
ghost use Rattle.loop_plan.specs.StepOutline.{step_outline, plan_step_count};
ghost use Rattle.loop_plan.specs.Exports.{exports_in, is_some_exported, HaveExports};
ghost use Rattle.loop_plan.specs.Counted.{counted_steps};
ghost use Rattle.loop_plan.specs.Counts.{Counts};
ghost use Rattle.loop_plan.specs.Spaced.{spaced};
ghost use Rattle.loop_plan.specs.OnePlan.{LeastColoursAreOne, PlanTextsAreOne, PlansAreOne, StepCountsAreOne};

/// The standard order with groups of any size has two steps for each message and for each element that
/// a rank runs, and one for each join.
pub fn standard_is_counted()
    ensures { (o : Outline) (g : ℕ) → length (standard o g) ≡ counted_steps o }
{}

/// A plan has two steps for each message and each place of an item, and one for each join.
pub fn steps_are_counted()
    ensures { (b : BoundValue) (meshes : List RankMesh) (p : PlanValue) → Counts b meshes p
        → step_count (step_outline b meshes p) ≡ plan_step_count b meshes p }
{}

/// Exchanges by one bit a dat are those of the history: each is needed, some earlier item modified the dat, and none
/// between exchanged it.
pub fn one_bit_gives_exchanges()
    ensures { (b : BoundValue) (p : PlanValue) → IsInRange b → length p.items ≡ length b.trace
        → ((k : ℕ) → k < length b.trace → (item_plan p k).exchange ≡ listed (dat_count b.mesh) (exchanged_at b k))
        → AreExchanges b p }
{}

/// A bound program's loops and dats are in range.
pub fn bound_is_in_range()
    ensures { (b : BoundValue) → Fits b → IsInRange b }
{}

/// By local meshes a rank imports from another exactly where it imports an element that the other owns.
pub fn imports_are_exports()
    ensures { (g : MeshValue) (o : Owners) (p : Perms) (meshes : List RankMesh) → ArePerms g p → AreRankMeshes g o p meshes
        → (s r t : ℕ) → s < o.ranks → r < o.ranks → t < set_count g
        → (imports_from (sets_of meshes s) (sets_of meshes r) t ≡ true)
        ↔ ((x : ℕ) × (x < set_size g t) × (imports g o t x r ≡ true) × (owns o t x s ≡ true)) }
{}

/// A line is its first part, the others behind a space each, and LF.
pub fn lines_are_spaced()
    ensures line { (t : List ℕ) (ts : List (List ℕ)) → line_of (t ∷ ts) ≡ t ++ (spaced ts ++ (10 ∷ [])) }
    ensures append { (xs ys : List (List ℕ)) → spaced (xs ++ ys) ≡ spaced xs ++ spaced ys }
{}

/// The halos of a mesh have exports by owner and rank; a list of them is empty exactly where, by local meshes, the rank
/// imports nothing from the owner.
pub fn exports_are_messages()
    ensures lists { (g : MeshValue) (o : Owners) (h : Halos) → AreOwners g o → AreHalos g o h → HaveExports g h }
    ensures messages { (g : MeshValue) (o : Owners) (h : Halos) → AreHalos g o h → (p : Perms) (meshes : List RankMesh)
        → ArePerms g p → AreRankMeshes g o p meshes → (s r t : ℕ) → s < o.ranks → r < o.ranks → t < set_count g
        → is_some_exported (exports_in h t) s r ≡ imports_from (sets_of meshes s) (sets_of meshes r) t }
{}

/// A law: two plans with least colours have the same colours, where their blocks have one size and their local meshes
/// are the same as lists.
pub fn least_colours_are_one()
    ensures { LeastColoursAreOne }
{}

/// Two plans of a program with least colours, in blocks of one size and on local meshes that are the same as lists,
/// have one text and one number of steps.
pub fn one_plan_text()
    ensures { PlanTextsAreOne }
{}

/// Two plans of a program with least colours, in blocks of one size and on local meshes that are the same as lists,
/// have the same steps, exchange the same dats, and have the same places and colours; each rank has the same elements.
pub fn one_plan()
    ensures { PlansAreOne }
{}

/// A program has one number of steps on local meshes that are the same as lists.
pub fn one_step_count()
    ensures { StepCountsAreOne }
{}

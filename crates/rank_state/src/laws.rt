// Each step of the lists is one of the machine on flat buffers. Each function's contract is the law.
ghost use Rattle.std.specs.Prelude.{◌+◌, ◌≡◌, ◌≢◌, ◌<◌, ◌≤◌, ◌==◌, ℕ, suc, ℤ, pos, List, [], ◌∷◌, ◌++◌, Some, None, map, length, take};
ghost use Rattle.std.specs.Prelude.{slice_index_or};
ghost use Rattle.schedule_steps.specs.declared.step.Step.{Step};
ghost use Rattle.schedule_steps.specs.declared.step.Step.TheVariants.{Send, Recv, Begin, End, Join};
ghost use Rattle.schedule_steps.specs.Steps.{IsStep, Accepted};
ghost use Rattle.schedule_model.specs.Cells.{VarCell};
ghost use Rattle.schedule_model.specs.Program.{Free, Reduce, Ordered, Host, Halts, Goes, elements};
ghost use Rattle.schedule_model.specs.Setup.{Setup, owner_of};
ghost use Rattle.schedule_model.specs.Sequential.{Stop};
ghost use Rattle.schedule_model.specs.Kept.{if_before};
ghost use Rattle.schedule_model.specs.Layout.{Layout, Faults, Leaves, IsLayout, by_place};
ghost use Rattle.schedule_model.specs.Flat.{Flat, Shut_pane, variable, flat_step, flat_from, StartsFlat, owned, element_flat, loop_flat};
ghost use Rattle.rank_state.specs.declared.spans.Span.{Span};
ghost use Rattle.rank_state.specs.declared.scalars.Operation.{Operation};
ghost use Rattle.rank_state.specs.declared.scalars.Scalar.{Scalar};
ghost use Rattle.rank_state.specs.Spans.{Within, total, cells_at};
ghost use Rattle.rank_state.specs.Windows.{cells_from};
ghost use Rattle.rank_state.specs.Frames.{Shut, pane_at};
ghost use Rattle.rank_state.specs.Mail.{Carries};
ghost use Rattle.rank_state.specs.Machine.{State, row, posted, taken, begun, ended, passed, windows_of};
ghost use Rattle.rank_state.specs.Shows.{Tables, variables_from, Indexed, AreScalars, AreExports, AreImports, AreWindows, Shows, pane_in};
ghost use Rattle.rank_state.specs.Groups.{begins, Distinct, Planned, AllShut};
ghost use Rattle.rank_state.specs.Starting.{Starts, started, AreFirst, AreSlots, ArePlaces};
ghost use Rattle.rank_state.specs.Joins.{reduced, AreReduced};
ghost use Rattle.rank_state.specs.declared.owned.Owned.{Owned};
ghost use Rattle.rank_state.specs.Indices.{values_at};
ghost use Rattle.rank_state.specs.Ordered.{AreOwned, total_all, put_back, all_windows, left_in, run_of};
ghost use Rattle.rank_state.specs.Can.{CanCopy, CanBegin, CanEnd, CanReduce, CanRun};

/// A send that packs the exported cells.
pub fn send_shows<F>()
    ensures { (p : Setup F) (l : Layout F) (t : Tables) → Indexed p l t → (k s r : ℕ) → s < p.ranks
        → (spans : List Span) → AreExports p l t k s r s spans → (st : State F) (f : Flat F) → Shows p l t st f
        → Shows p l t (posted k s r spans st) (flat_step p l (Send k s r) f) }
{}

/// A receive whose pair's oldest message is of its item.
pub fn recv_shows<F>()
    ensures { (p : Setup F) (l : Layout F) (t : Tables) → Indexed p l t → (k r s : ℕ) → r < p.ranks
        → (spans : List Span) → AreImports p l t k s r spans → (st : State F) (f : Flat F) → Shows p l t st f
        → Carries k s r (total spans) st.mail → Shows p l t (taken r s spans st) (flat_step p l (Recv k r s) f) }
{
    schedule_model::flat_machine::scatter_is_look_up();
}

/// A begin at a place where nothing is open.
pub fn begin_shows<F>()
    ensures { (p : Setup F) (l : Layout F) (t : Tables) → Indexed p l t → IsLayout p l → (k r x : ℕ) → IsStep (by_place p l) (Begin k r x)
        → (spans : List Span) (scalars : List Scalar) → AreWindows p l t k r x spans scalars → (st : State F) (f : Flat F)
        → Shows p l t st f
        → pane_at st.frames.panes r x ≡ Shut
        → Shows p l t (begun l.core t.constants k r x (l.original k r x) spans scalars st) (flat_step p l (Begin k r x) f) }
{}

/// The end of an element that is open in the item.
pub fn end_shows<F>()
    ensures { (p : Setup F) (l : Layout F) (t : Tables) → Indexed p l t → (k r x : ℕ) → IsStep (by_place p l) (End k r x)
        → (spans : List Span) (scalars : List Scalar) → AreWindows p l t k r x spans scalars → (st : State F) (f : Flat F)
        → Shows p l t st f
        → pane_in k (pane_at st.frames.panes r x) ≢ Shut_pane
        → Shows p l t (ended (p.owner (p.program.set k) (l.original k r x) == r) r x spans scalars st) (flat_step p l (End k r x) f) }
{
    schedule_model::flat_machine::scatter_is_look_up();
}

/// What a step of an accepted list needs of the lists: the oldest message of its pair is its own,
/// nothing is open at its place, its element is open. Before a group of begins nothing is open at its
/// places, which are distinct.
pub fn steps_are_ready<F>()
    ensures recv { (p : Setup F) (l : Layout F) (t : Tables) (all : List Step) → Accepted (by_place p l) all → (start : Flat F)
        → StartsFlat p l start
        → (front left : List Step) (k r s : ℕ) → all ≡ front ++ Recv k r s ∷ left
        → (st : State F) → Shows p l t st (flat_from p l front start) → (spans : List Span) → AreImports p l t k s r spans
        → Carries k s r (total spans) st.mail }
    ensures begin { (p : Setup F) (l : Layout F) (t : Tables) (all : List Step) → Accepted (by_place p l) all → (start : Flat F)
        → StartsFlat p l start
        → (front left : List Step) (k r : ℕ) (places : List ℕ) → all ≡ front ++ (begins k r places ++ left)
        → (st : State F) → Shows p l t st (flat_from p l front start)
        → Planned (by_place p l) k r places × AllShut st.frames.panes r places × Distinct places }
    ensures end { (p : Setup F) (l : Layout F) (t : Tables) (all : List Step) → Accepted (by_place p l) all → (start : Flat F)
        → StartsFlat p l start
        → (front left : List Step) (k r x : ℕ) → all ≡ front ++ End k r x ∷ left
        → (st : State F) → Shows p l t st (flat_from p l front start) → pane_in k (pane_at st.frames.panes r x) ≢ Shut_pane }
{
    schedule_steps::accepted_steps_fit();
    schedule_model::flat_machine::flat_goes_by_steps::<F>();
}

/// A join: by the kept fault, where it is of an earlier item; else a Reduce merges the partials, and a
/// host statement faults or leaves other variables and prints.
pub fn join_shows<F>()
    ensures stops { (p : Setup F) (l : Layout F) (t : Tables) (st : State F) (f : Flat F) → Shows p l t st f → (k : ℕ) (x : Stop F)
        → if_before k st.fault ≡ Some x → flat_step p l (Join k) f ≡ record f { stop = Some x } }
    ensures reduces { (p : Setup F) (l : Layout F) (t : Tables) (st : State F) (f : Flat F) → Shows p l t st f → (k : ℕ)
        → if_before k st.fault ≡ None → p.program.kind k ≡ Reduce → (scalars : List Scalar) → AreReduced p l t k scalars
        → Shows p l t (reduced scalars st) (flat_step p l (Join k) f) }
    ensures halts { (p : Setup F) (l : Layout F) (t : Tables) (st : State F) (f : Flat F) → Shows p l t st f → (k : ℕ)
        → if_before k st.fault ≡ None → p.program.kind k ≡ Host → (n : F) → p.program.host k (owned p l f) ≡ Halts n
        → flat_step p l (Join k) f ≡ record f { stop = Some (record { item = k; element = None; fault = n }) } }
    ensures hosts { (p : Setup F) (l : Layout F) (t : Tables) (st : State F) (f : Flat F) → Shows p l t st f → (k : ℕ)
        → if_before k st.fault ≡ None → p.program.kind k ≡ Host → (v : VarCell → ℤ) (w : List ℕ) (vs : List ℤ)
        → p.program.host k (owned p l f) ≡ Goes v w
        → length vs ≡ l.variables → ((i : ℕ) → i < l.variables → slice_index_or vs i (pos 0) ≡ v (l.variable_at i))
        → Shows p l t (record st { variables = vs; output = st.output ++ w }) (flat_step p l (Join k) f) }
{
    schedule_model::one_fault_is_enough::<F>();
}

/// What the machine's calls need of its lists.
pub fn steps_can<F>()
    ensures exports { (p : Setup F) (l : Layout F) (t : Tables) (k s r a : ℕ) (spans : List Span) → AreExports p l t k s r a spans
        → total spans ≡ length (l.exports k s r) }
    ensures imports { (p : Setup F) (l : Layout F) (t : Tables) (k s r : ℕ) (spans : List Span) → AreImports p l t k s r spans
        → total spans ≡ length (l.exports k s r) }
    ensures copy { (p : Setup F) (l : Layout F) (t : Tables) (st : State F) (f : Flat F) → Shows p l t st f
        → (r : ℕ) (spans : List Span) → r < p.ranks → Within (l.width r) spans → CanCopy st r spans }
    ensures begin { (p : Setup F) (l : Layout F) (t : Tables) (st : State F) (f : Flat F) → Shows p l t st f → Indexed p l t
        → (k r x : ℕ) → IsStep (by_place p l) (Begin k r x) → (spans : List Span) (scalars : List Scalar)
        → AreWindows p l t k r x spans scalars → CanBegin st t.constants r x spans scalars }
    ensures end { (p : Setup F) (l : Layout F) (t : Tables) (st : State F) (f : Flat F) → Shows p l t st f → Indexed p l t
        → (k r x : ℕ) → IsStep (by_place p l) (End k r x) → (spans : List Span) (scalars : List Scalar)
        → AreWindows p l t k r x spans scalars → pane_in k (pane_at st.frames.panes r x) ≢ Shut_pane → CanEnd st r x spans scalars }
    ensures reduce { (p : Setup F) (l : Layout F) (t : Tables) (st : State F) (f : Flat F) → Shows p l t st f
        → (k : ℕ) (scalars : List Scalar) → AreScalars p l t k scalars → CanReduce st scalars }
    ensures element { (p : Setup F) (l : Layout F) (t : Tables) (st : State F) (f : Flat F) → Shows p l t st f → Indexed p l t
        → (k e : ℕ) (spans : List Owned) (indices : List ℕ) → AreOwned p l t k e spans indices → CanRun st t.constants spans indices }
{}

/// One element of an Ordered loop: its windows are the owners' values and the variables, and what its
/// run leaves goes back there.
pub fn element_shows<F>()
    ensures windows { (p : Setup F) (l : Layout F) (t : Tables) → Indexed p l t → (st : State F) (f : Flat F) → Shows p l t st f
        → (k e : ℕ) (spans : List Owned) (indices : List ℕ) → AreOwned p l t k e spans indices
        → all_windows spans indices st ≡ map (owned p l f) (l.cells k e) }
    ensures leaves { (p : Setup F) (l : Layout F) (t : Tables) → Indexed p l t → (st : State F) (f : Flat F) → Shows p l t st f
        → (k e : ℕ) (spans : List Owned) (indices : List ℕ) → AreOwned p l t k e spans indices → (ws : List ℤ)
        → length ws ≡ length (l.cells k e)
        → Shows p l t (put_back spans indices ws st) (element_flat p l k e (Leaves ws) f) }
{
    schedule_model::flat_machine::scatter_is_look_up();
}

/// The lists at the start, as the program's first values make them.
pub fn start_shows<F>()
    ensures shows { (p : Setup F) (l : Layout F) (t : Tables) (st : State F) → Starts p l t st
        → (f : Flat F) × StartsFlat p l f × Shows p l t st f }
    ensures lists { (p : Setup F) (l : Layout F) (t : Tables) (memories : List (List ℤ)) (variables : List ℤ) (slots : List Operation)
        (places : List ℕ)
        (frames mail : ℕ) → AreFirst p l t memories variables → AreSlots p l t slots → ArePlaces p l t places
        → Starts p l t (started memories variables slots places frames mail t.stride) }
{}

/// A begin leaves its element open, and the other places of its rank shut that were.
pub fn begin_opens<F>()
    ensures own { (p : Setup F) (l : Layout F) (t : Tables) (st : State F) (f : Flat F) (k r x : ℕ)
        → Shows p l t st (flat_step p l (Begin k r x) f) → pane_in k (pane_at st.frames.panes r x) ≢ Shut_pane }
    ensures others { (p : Setup F) (l : Layout F) (t : Tables) (old new : State F) (f : Flat F) (k r x y : ℕ)
        → Shows p l t old f → Shows p l t new (flat_step p l (Begin k r x) f) → y ≢ x → pane_at old.frames.panes r y ≡ Shut
        → pane_at new.frames.panes r y ≡ Shut }
{}

/// The loop of an Ordered item, element after element: one that finishes, one that faults, and what
/// comes after a fault.
pub fn loop_shows<F>()
    ensures goes { (p : Setup F) (l : Layout F) (t : Tables) → Indexed p l t → IsLayout p l → (k : ℕ) (f : Flat F) (n : ℕ) (st : State F)
        → Shows p l t st (loop_flat p l k n f) → p.program.kind k ≡ Ordered → n < elements p.program k
        → (spans : List Owned) (indices : List ℕ)
        → AreOwned p l t k n spans indices → (us : List ℤ) → run_of l t k n spans indices st ≡ Leaves us
        → Shows p l t (left_in spans indices (run_of l t k n spans indices st) st) (loop_flat p l k (suc n) f) }
    ensures breaks { (p : Setup F) (l : Layout F) (t : Tables) → Indexed p l t → IsLayout p l → (k : ℕ) (f : Flat F) (n : ℕ) (st : State F)
        → Shows p l t st (loop_flat p l k n f) → (spans : List Owned) (indices : List ℕ) → AreOwned p l t k n spans indices → (x : F)
        → run_of l t k n spans indices st ≡ Faults x
        → loop_flat p l k (suc n) f ≡ record (loop_flat p l k n f) { stop = Some (record { item = k; element = Some n; fault = x }) } }
    ensures ended { (p : Setup F) (l : Layout F) (k : ℕ) (f : Flat F) (n m : ℕ) → n ≤ m → (x : Stop F)
        → (loop_flat p l k n f).stop ≡ Some x → loop_flat p l k m f ≡ loop_flat p l k n f }
    ensures join { (p : Setup F) (l : Layout F) (t : Tables) (st : State F) (f : Flat F) → Shows p l t st f → (k : ℕ)
        → if_before k st.fault ≡ None → p.program.kind k ≡ Ordered → flat_step p l (Join k) f ≡ loop_flat p l k (elements p.program k) f }
{
    schedule_model::flat_machine::scatter_is_look_up();
    schedule_model::one_fault_is_enough::<F>();
}

/// How many cells an element's windows have; and a begin is one of an element of a Free loop.
pub fn windows_are_counted<F>()
    ensures windows { (p : Setup F) (l : Layout F) (t : Tables) (k r x : ℕ) (spans : List Span) (scalars : List Scalar)
        → AreWindows p l t k r x spans scalars
        → total spans + length scalars ≡ length (l.cells k (l.original k r x)) }
    ensures owned { (p : Setup F) (l : Layout F) (t : Tables) (k e : ℕ) (spans : List Owned) (indices : List ℕ)
        → AreOwned p l t k e spans indices
        → total_all spans + length indices ≡ length (l.cells k e) }
    ensures elements { (p : Setup F) (l : Layout F) → IsLayout p l → (k r x : ℕ) → IsStep (by_place p l) (Begin k r x)
        → (p.program.kind k ≡ Free) × (l.original k r x < elements p.program k) }
{}

/// The cells of one owner that stand side by side have the values of the owners' copies, and the variables are those of
/// the state.
pub fn owners_show<F>()
    ensures cells { (p : Setup F) (l : Layout F) (t : Tables) → Indexed p l t → (st : State F) (f : Flat F) → Shows p l t st f
        → (o : Owned) → o.rank < p.ranks → o.at + o.dim ≤ l.width o.rank
        → ((j : ℕ) → j < o.dim → owner_of p (l.cell_at o.rank (o.at + j)) ≡ o.rank)
        → cells_at o.at o.dim (row st.memories o.rank) ≡ map (owned p l f) (cells_from (l.cell_at o.rank) o.at o.dim) }
    ensures variables { (p : Setup F) (l : Layout F) (t : Tables) → Indexed p l t → (st : State F) (f : Flat F) → Shows p l t st f
        → st.variables ≡ map (variable p l f) (variables_from l.variable_at 0 l.variables) }
{}

/// A begin at a place where nothing is open, and its own end at once.
pub fn in_place_shows<F>()
    ensures { (p : Setup F) (l : Layout F) (t : Tables) → Indexed p l t → IsLayout p l → (k r x : ℕ) → IsStep (by_place p l) (Begin k r x)
        → (spans : List Span) (scalars : List Scalar) → AreWindows p l t k r x spans scalars → (st : State F) (f : Flat F)
        → Shows p l t st f → pane_at st.frames.panes r x ≡ Shut → 0 < st.frames.left
        → Shows p l t
        (passed (p.owner (p.program.set k) (l.original k r x) == r) k r (l.original k r x) spans scalars
        (l.core k (l.original k r x) (values_at st.variables t.constants) (windows_of st r spans scalars)) st)
        (flat_step p l (End k r x) (flat_step p l (Begin k r x) f)) }
{
    schedule_model::flat_machine::scatter_is_look_up();
}

//! The laws of a setup, from what binding, kernels, halos, exchanges and colours say of its parts.
ghost use Rattle.std.specs.Prelude.{◌≡◌, ◌<◌, ◌↔◌, ℕ, Bool, true};
ghost use Rattle.schedule_model.specs.Cells.{Cell, Data, DatCell, Store};
ghost use Rattle.schedule_model.specs.Effects.{Ran, Independent, is_read, is_modified};
ghost use Rattle.schedule_model.specs.Program.{Free, elements};
ghost use Rattle.schedule_model.specs.Setup.{Setup};
ghost use Rattle.schedule_model.specs.Laws.{Kernels, Items, Lawful, Coloured};
ghost use Rattle.schedule_model.specs.Arguments.{Argument, Entries, access_of, modifying, reading, is_on, reaches, touch_by};
ghost use Rattle.schedule_model.specs.Tells.{Tells};
ghost use Rattle.schedule_model.specs.ByArguments.{IndependentBy, ReadConstants, touch_with};
ghost use Rattle.schedule_model.specs.LoopParts.{LoopParts};

/// A bound program with its setup is lawful: the premises of the theorem on schedules hold of it, and
/// its colours order the elements that modify a common cell.
pub fn setup_is_lawful<F>()
    ensures lawful { (p : Setup F) → Kernels p → Items p → LoopParts p → Lawful p }
    ensures coloured { (p : Setup F) → LoopParts p → Coloured p }
{}

/// A window on a dat that a Free loop modifies has modified cells alone, by whichever argument the
/// element reaches them: so an `end` may copy such windows back whole. What an element modifies are
/// exactly the cells of its windows on the dats that the item modifies.
pub fn windows_are_modified<F>()
    ensures whole { (p : Setup F) (f : LoopParts p) (k e : ℕ) (c : DatCell) (a b : ℕ) → p.program.kind k ≡ Free → e < elements p.program k
        → a < f.args (p.program.site k) → b < f.args (p.program.site k)
        → reaches f.entry f.dim f.width e (f.arg (p.program.site k) a) (Data c) ≡ true
        → is_on c.dat (f.arg (p.program.site k) b) ≡ true → modifying (access_of (f.arg (p.program.site k) b)) ≡ true
        → is_modified (p.touch k e (Data c)) ≡ true }
    ensures exactly { (p : Setup F) (f : LoopParts p) (k e : ℕ) (c : DatCell) → p.program.kind k ≡ Free → e < elements p.program k
        → (is_modified (p.touch k e (Data c)) ≡ true) ↔ ((p.modifies k c.dat ≡ true)
        × (a : ℕ) × (a < f.args (p.program.site k)) × (reaches f.entry f.dim f.width e (f.arg (p.program.site k) a) (Data c) ≡ true)) }
{}

/// What the touch of a cell says of the arguments by which an element reaches it, and that a cell
/// which an OP_READ or OP_RW argument reaches is of a touch that is read: so the independence of a
/// kernel by its arguments is independence by touches.
pub fn touches_tell()
    ensures tells { (entry : Entries) (dim width : ℕ → ℕ) (arg : ℕ → Argument) (e : ℕ) (c : Cell) (n : ℕ)
        → Tells entry dim width arg n e c (touch_by entry dim width arg n e c) }
    ensures read { (entry : Entries) (dim width : ℕ → ℕ) (arg : ℕ → Argument) (e : ℕ) (c : Cell) (n a : ℕ) → a < n
        → reaches entry dim width e (arg a) c ≡ true → reading (access_of (arg a)) ≡ true
        → is_read (touch_by entry dim width arg n e c) ≡ true }
{}

/// A kernel whose runs are independent by its arguments is independent by touches, where constants
/// count as read.
pub fn arguments_give_touches<F>()
    ensures { (entry : Entries) (dim width : ℕ → ℕ) (arg : ℕ → Argument) (n e : ℕ) (is_constant : Cell → Bool) (run : Store → Ran F)
        → ReadConstants entry dim width arg n e is_constant → IndependentBy entry dim width arg n e is_constant run
        → Independent run (touch_with entry dim width arg n e is_constant) }
{}

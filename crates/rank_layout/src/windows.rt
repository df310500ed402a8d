// Where the windows of a loop's arguments stand in an element's frame: those on dats first, then those on variables.
// Arguments that reach the same have one window.

ghost use Rattle.std.specs.Prelude.{◌≡◌, ◌+◌, ◌*◌, ◌<◌, ◌≤◌, ℕ, true, false, All, map, length};
ghost use Rattle.kernel_model.specs.Framed.{target_of, PlacesIn};
ghost use Rattle.bound_program.specs.Values.{bound_of};
ghost use Rattle.run_model.specs.Windows.{reached, element_by};
ghost use Rattle.run_model.specs.Arguments.{arg_width};
ghost use Rattle.bound_plan.specs.Windows.{frame_cells, frame_windows};
ghost use Rattle.rank_layout.specs.Numbered.{number_of, is_one, is_one_at, ArgNamed, ViaThere, ArgThere, AreNumbers};
ghost use Rattle.rank_layout.specs.Placed.{is_dat, IsPut, DatsPut, AllPut};

use bound_program::{Arg, Bound, Via};
use kernel_model::types::views::Place;

/// As many as a loop has arguments at most.
pub const MAX_ARGS: usize = 16;

/// The element that an element of the loop reaches directly, or by a map.
pub fn element_by(bound: &Bound, via: Option<Via>, element: u32) -> u32
    requires { ViaThere (bound_of bound.now) element via }
    ensures { result ≡ element_by (bound_of bound.now) via element }
{
    match via {
        None => element,
        Some(via) => bound.mesh.target(via.map, element, via.index),
    }
}

// The number of what an element reaches by an argument.
fn number_by(bound: &Bound, arg: Arg, element: u32) -> u32
    requires { ArgThere (bound_of bound.now) element arg }
    ensures { result ≡ number_of (reached (bound_of bound.now) element arg) }
{
    match arg {
        Arg::Dat { via, .. } => element_by(bound, via, element),
        Arg::Global { var, .. } => var,
    }
}

// The numbers of what an element reaches by the arguments.
fn put_numbers(bound: &Bound, args: &[Arg], element: u32, numbers: &mut [u32])
    requires there { All (ArgThere (bound_of bound.now) element) args.now }
    requires count { length args.now ≤ length numbers.old }
    ensures { AreNumbers (bound_of bound.now) element args.now numbers.new }
{
    for (i, arg) in args.iter().enumerate() {
        numbers[i] = number_by(bound, *arg, element);
    }
}

/// How many cells an argument's window has.
pub fn width_of(bound: &Bound, arg: Arg) -> usize
    requires { ArgNamed (bound_of bound.now) arg }
    ensures { result ≡ arg_width (bound_of bound.now) arg }
{
    match arg {
        Arg::Dat { dat, .. } => {
            let (_, dim) = bound.mesh.dat_shape(dat);
            dim as usize
        }
        Arg::Global { var, .. } => bound.vars[var as usize].start.as_slice().len(),
    }
}

// Whether two arguments reach one thing, whose numbers are `n` and `m`.
fn is_one(x: Arg, n: u32, y: Arg, m: u32) -> bool
    ensures { result ≡ is_one x n y m }
{
    match x {
        Arg::Dat { dat: d, .. } => match y {
            Arg::Dat { dat: e, .. } => d == e && n == m,
            Arg::Global { .. } => false,
        },
        Arg::Global { var: v, .. } => match y {
            Arg::Dat { .. } => false,
            Arg::Global { var: w, .. } => v == w,
        },
    }
}

// Whether the argument is on a dat.
fn is_dat(arg: Arg) -> bool
    ensures { result ≡ is_dat arg }
{
    match arg {
        Arg::Dat { .. } => true,
        Arg::Global { .. } => false,
    }
}

// The first argument that reaches what argument `i` does.
fn first_same(args: &[Arg], numbers: &[u32], i: usize) -> usize
    requires i { i < length args.now }
    requires count { length args.now ≤ length numbers.now }
    ensures within { result ≤ i }
    ensures same { result < i → is_one_at args.now numbers.now result i ≡ true }
    ensures fresh { result ≡ i → (k : ℕ) → k < i → is_one_at args.now numbers.now k i ≡ false }
{
    for j in 0..i {
        if is_one(args[j], numbers[j], args[i], numbers[i]) {
            return j;
        }
    }
    i
}

// Puts down the window of argument `i`, a new one from the cell `next` on where no earlier argument reaches the same;
// and gives where the windows end then.
fn put_window(
    bound: &Bound,
    args: &[Arg],
    numbers: &[u32],
    i: usize,
    next: usize,
    places: &mut [Place],
) -> usize
    requires named { All (ArgNamed (bound_of bound.now)) args.now }
    requires i { i < length args.now }
    requires count { length args.now ≤ length numbers.now }
    requires room { length args.now ≤ length places.old }
    requires next { next ≤ 4096 }
    ensures put { IsPut (bound_of bound.now) args.now numbers.now i next places.old places.new result }
    ensures next { result ≤ next + 64 }
{
    let first = first_same(args, numbers, i);
    if first < i {
        places[i] = places[first];
        return next;
    }
    let count = width_of(bound, args[i]);
    places[i] = Place { from: next, count };
    next + count
}

// The same, where argument `i` is on a dat.
fn put_dat(
    bound: &Bound,
    args: &[Arg],
    numbers: &[u32],
    i: usize,
    next: usize,
    places: &mut [Place],
) -> usize
    requires named { All (ArgNamed (bound_of bound.now)) args.now }
    requires i { i < length args.now }
    requires count { length args.now ≤ length numbers.now }
    requires room { length args.now ≤ length places.old }
    requires next { next ≤ 4096 }
    ensures put { (e : ℕ) → AreNumbers (bound_of bound.now) e args.now numbers.now
        → DatsPut (bound_of bound.now) e args.now i places.old next
        → DatsPut (bound_of bound.now) e args.now (i + 1) places.new result }
    ensures next { result ≤ next + 64 }
{
    if is_dat(args[i]) {
        put_window(bound, args, numbers, i, next, places)
    } else {
        next
    }
}

// The same, where argument `i` is on a variable, and those on dats are put.
fn put_variable(
    bound: &Bound,
    args: &[Arg],
    numbers: &[u32],
    i: usize,
    next: usize,
    places: &mut [Place],
) -> usize
    requires named { All (ArgNamed (bound_of bound.now)) args.now }
    requires i { i < length args.now }
    requires count { length args.now ≤ length numbers.now }
    requires room { length args.now ≤ length places.old }
    requires next { next ≤ 4096 }
    ensures put { (e : ℕ) → AreNumbers (bound_of bound.now) e args.now numbers.now
        → AllPut (bound_of bound.now) e args.now i places.old next
        → AllPut (bound_of bound.now) e args.now (i + 1) places.new result }
    ensures next { result ≤ next + 64 }
{
    if is_dat(args[i]) {
        next
    } else {
        put_window(bound, args, numbers, i, next, places)
    }
}

// Puts down the windows of the arguments on dats, and gives where they end.
fn put_dats(bound: &Bound, args: &[Arg], numbers: &[u32], places: &mut [Place]) -> usize
    requires named { All (ArgNamed (bound_of bound.now)) args.now }
    requires few { length args.now ≤ 16 }
    requires count { length args.now ≤ length numbers.now }
    requires room { length args.now ≤ length places.old }
    ensures put { (e : ℕ) → AreNumbers (bound_of bound.now) e args.now numbers.now
        → DatsPut (bound_of bound.now) e args.now (length args.now) places.new result }
    ensures next { result ≤ 1024 }
{
    let mut next = 0;
    for i in 0..args.len() {
        next = put_dat(bound, args, numbers, i, next, places);
    }
    next
}

// Puts down the windows of the arguments on variables, behind those on dats, and gives where they end.
fn put_variables(
    bound: &Bound,
    args: &[Arg],
    numbers: &[u32],
    from: usize,
    places: &mut [Place],
) -> usize
    requires named { All (ArgNamed (bound_of bound.now)) args.now }
    requires few { length args.now ≤ 16 }
    requires count { length args.now ≤ length numbers.now }
    requires room { length args.now ≤ length places.old }
    requires from { from ≤ 1024 }
    ensures { (e : ℕ) → AreNumbers (bound_of bound.now) e args.now numbers.now
        → DatsPut (bound_of bound.now) e args.now (length args.now) places.old from
        → AllPut (bound_of bound.now) e args.now (length args.now) places.new result }
{
    let mut next = from;
    for i in 0..args.len() {
        next = put_variable(bound, args, numbers, i, next, places);
    }
    next
}

/// Puts down where the windows of at most 16 arguments of at most 64 cells stand in an element's frame, and gives how
/// many cells the frame has; `places` has as many places as there are arguments. Takes no memory.
pub fn put_windows(bound: &Bound, args: &[Arg], element: u32, places: &mut [Place]) -> usize
    requires there { All (ArgThere (bound_of bound.now) element) args.now }
    requires few { length args.now ≤ 16 }
    requires count { length places.old ≡ length args.now }
    ensures places { map target_of places.new ≡ frame_windows (bound_of bound.now) args.now element }
    ensures within { PlacesIn (length (frame_cells (bound_of bound.now) args.now element)) places.new }
    ensures count { result ≡ length (frame_cells (bound_of bound.now) args.now element) }
{
    let mut numbers = [0; MAX_ARGS];
    put_numbers(bound, args, element, &mut numbers);
    let next = put_dats(bound, args, &numbers, places);
    put_variables(bound, args, &numbers, next, places)
}

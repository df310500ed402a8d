// What a loop needs and modifies, by its arguments.
ghost use Rattle.std.specs.Prelude.{◌≡◌};
ghost use Rattle.std.specs.List.{list_any};
ghost use Rattle.bound_program.specs.Classes.{is_reducing, is_scattered, scatters};
ghost use Rattle.loop_plan.specs.Needs.{reads_copies, arg_needs, needs};

use bound_program::{Access, Arg, Via};

/// Whether amounts are merged by the access: OP_INC, OP_MIN or OP_MAX.
pub fn is_merged(access: Access) -> bool
    ensures { result ≡ is_reducing access }
{
    matches!(access, Access::Inc | Access::Min | Access::Max)
}

fn is_scattered_arg(arg: Arg) -> bool
    ensures { result ≡ is_scattered arg }
{
    match arg {
        Arg::Dat { via, access, .. } => via.is_some() && is_merged(access),
        Arg::Global { .. } => false,
    }
}

/// Whether a loop with these arguments merges amounts into what its maps lead to.
pub fn is_scattering(args: &[Arg]) -> bool
    ensures { result ≡ scatters args.now }
{
    for arg in args {
        if is_scattered_arg(*arg) {
            return true;
        }
    }
    false
}

fn copies_are_read(scattering: bool, via: Option<Via>, access: Access) -> bool
    ensures { result ≡ reads_copies scattering via access }
{
    match access {
        Access::Read => via.is_some() || scattering,
        Access::Rw => via.is_none() && scattering,
        _ => false,
    }
}

fn asks_for(arg: Arg, scattering: bool, wanted: u32) -> bool
    ensures { result ≡ arg_needs scattering wanted arg }
{
    match arg {
        Arg::Dat { dat, via, access } => dat == wanted && copies_are_read(scattering, via, access),
        Arg::Global { .. } => false,
    }
}

// Whether one of the arguments asks for fresh copies of the dat.
pub(crate) fn needs_dat(args: &[Arg], scattering: bool, dat: u32) -> bool
    ensures { result ≡ list_any (arg_needs scattering dat) args.now }
{
    for arg in args {
        if asks_for(*arg, scattering, dat) {
            return true;
        }
    }
    false
}

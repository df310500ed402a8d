// A window cut from a buffer.
ghost use Rattle.std.specs.Prelude.{◌≡◌, take, ◌≤◌, length, drop};
ghost use Rattle.std.specs.Borrow.{sem};
ghost use Rattle.kernel_model.specs.Cutting.{Cuts};

/// The first `dim` cells of a buffer, and the rest. Once both loans end, the buffer is the window and then the rest, as
/// they were left; so cells between two windows are cut off as a part that nobody writes.
pub fn cut<'a>(buffer: &'a mut [i32], dim: usize) -> (&'a mut [i32], &'a mut [i32])
    requires { dim ≤ length buffer.old }
    ensures* lends { sem 𝓛 (Cuts buffer.entry result) }
    ensures window { result.0.now ≡ take dim buffer.old }
    ensures rest { result.1.now ≡ drop dim buffer.old }
{
    buffer.split_at_mut(dim)
}

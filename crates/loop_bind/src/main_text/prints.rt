// What `op_printf` takes.

ghost use Rattle.std.specs.Prelude.{◌≡◌};
ghost use Rattle.mesh_decl.specs.Printed.{conversions};

/// How many values a text of `op_printf` takes, one for each `%d`; none where a `%` is neither in `%d` nor in `%%`.
#[tactic(auto, using(crate::proofs::main_text::Lines::added_zero, crate::proofs::main_text::Lines::closes_none))]
pub fn conversions(text: &[u8]) -> Option<usize>
    ensures { result ≡ conversions text.now }
{
    let mut count = 0;
    let mut is_open = false;
    for byte in text {
        if is_open {
            if *byte == b'd' {
                count += 1;
            } else if *byte != b'%' {
                return None;
            }
            is_open = false;
        } else {
            is_open = *byte == b'%';
        }
    }
    if is_open { None } else { Some(count) }
}

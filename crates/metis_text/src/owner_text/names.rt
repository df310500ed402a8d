// Whether a text can name the sets of a mesh.

ghost use Rattle.std.specs.Prelude.{◌≡◌, ◌<◌, ℕ, true, false, ◌↔◌, IfSome, None};
ghost use Rattle.std.specs.List.{list_all};
ghost use Rattle.op_num.specs.Cut.{dark};
ghost use Rattle.op_num.specs.Lines.{IsToken};
ghost use Rattle.mesh_decl.specs.Mesh.{set_count, set_name};
ghost use Rattle.metis_text.specs.Written.{HasName, HaveNames};

use mesh_decl::Mesh;

// Whether a byte is no blank.
fn is_dark(byte: u8) -> bool
    ensures { result ≡ dark byte }
{
    !(byte == b' ' || byte == b'\t' || byte == b'\r' || byte == b'\n')
}

// Whether no byte is a blank.
fn are_dark(bytes: &[u8]) -> bool
    ensures { result ≡ list_all dark bytes.now }
{
    bytes.iter().all(|byte| is_dark(*byte))
}

// Whether no set behind this one has its name.
fn is_last(mesh: &Mesh, set: u32) -> bool
    requires { set < set_count mesh.now }
    ensures yes { result ≡ true → (j : ℕ) → set < j → j < set_count mesh.now → ¬ (set_name mesh.now j ≡ set_name mesh.now set) }
    ensures no { result ≡ false
        → (j : ℕ) × (set < j) × (j < set_count mesh.now) × (set_name mesh.now j ≡ set_name mesh.now set) }
{
    let name = mesh.set_name(set).bytes();
    let mut later = mesh.set_count();
    while later > set + 1 {
        later -= 1;
        if mesh.set_name(later).bytes() == name {
            return false;
        }
    }
    true
}

// Whether a text can name the set.
fn has_name(mesh: &Mesh, set: u32) -> bool
    requires { set < set_count mesh.now }
    ensures yes { result ≡ true → HasName mesh.now set }
    ensures no { result ≡ false → ¬ HasName mesh.now set }
{
    let name = mesh.set_name(set).bytes();
    !name.is_empty() && are_dark(name) && is_last(mesh, set)
}

/// The first set that no text can name, or none where a text can name each.
pub fn first_unnamed(mesh: &Mesh) -> Option<u32>
    ensures some { IfSome result (λ s. (s < set_count mesh.now) × ¬ HasName mesh.now s) }
    ensures none { result ≡ None → HaveNames mesh.now }
{
    for set in 0..mesh.set_count() {
        if !has_name(mesh, set) {
            return Some(set);
        }
    }
    None
}

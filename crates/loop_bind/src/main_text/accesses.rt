// The access that a word names, and those that a global may not have.

ghost use Rattle.std.specs.Prelude.{◌≡◌};
ghost use Rattle.loop_bind.specs.Arguments.{access_of, is_reserved};

use c_tree::AccessWord;
use mesh_decl::Access;

/// The access that a word names.
pub fn access_of(word: AccessWord) -> Access
    ensures { result ≡ access_of word }
{
    match word {
        AccessWord::Read => Access::Read,
        AccessWord::Write => Access::Write,
        AccessWord::Rw => Access::Rw,
        AccessWord::Inc => Access::Inc,
        AccessWord::Min => Access::Min,
        AccessWord::Max => Access::Max,
    }
}

/// Whether an access is one that no global has, or that a kept one has not.
pub fn is_reserved(is_kept: bool, access: Access) -> bool
    ensures { result ≡ is_reserved is_kept access }
{
    match access {
        Access::Read => false,
        Access::Write | Access::Rw => true,
        _ => is_kept,
    }
}

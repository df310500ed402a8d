// The constants that kernels read, by their names.

ghost use Rattle.std.specs.Prelude.{◌≡◌, ℕ, cond, List, Some, IfOk, OnOk};
ghost use Rattle.std.specs.Map.{lookup};
ghost use Rattle.std.specs.Str.{bytes_eq};
ghost use Rattle.main_declarations.specs.SoFar.{first_cell};

use indexmap::IndexMap;
use kernel_model::types::ConstDecl;
use op_num::{Name, OutOfMemory};
use std::alloc::{AllocError, Global};
use std::marker::Model;

/// The constants that kernels read, with their first cells by name. Contracts see the list of the constants.
#[derive(Drop)]
pub struct KernelConstants<'a> {
    consts: &'a [ConstDecl],
    cells: IndexMap<Name, u32>,
}

impl<'a> Model for KernelConstants<'a> {
    ghost use Rattle.std.specs.Prelude.{◌≡◌, ℕ, List};
    ghost use Rattle.std.specs.Map.{lookup};
    ghost use Rattle.std.specs.Str.{bytes_eq};
    ghost use Rattle.kernel_model.specs.declared.types.kernels.ConstDecl.{ConstDecl as Decl};

    ghost Value = { List Decl };

    ghost use Rattle.main_declarations.specs.SoFar.{first_cell};

    ghost view = { λ k. k.consts.now };

    ghost invariant = { λ k. (x : List ℕ) → lookup (bytes_eq x) k.cells.entries ≡ first_cell k.consts.now x };
}

impl<'a> KernelConstants<'a> {
    /// These constants. Of several with one name the first counts.
    pub fn new(alloc: Global, consts: &'a [ConstDecl]) -> Result<KernelConstants<'a>, OutOfMemory>
        ensures { IfOk result (λ k. k ≡ consts.now) }
    {
        let mut cells = IndexMap::new(alloc);
        for i in (0..consts.len()).rev() {
            put_cell(&mut cells, &consts[i])?;
        }
        Ok(KernelConstants { consts, cells })
    }

    /// The first cell of the constant with this name.
    pub fn first_cell(&self, name: &Name) -> Option<u32>
        ensures { result ≡ first_cell self.now name.now }
    {
        self.cells.get(name).copied()
    }
}

// The constant counts before those that are there.
fn put_cell(cells: &mut IndexMap<Name, u32>, constant: &ConstDecl) -> Result<(), OutOfMemory>
    ensures { OnOk result ((x : List ℕ) → lookup (bytes_eq x) cells.new.entries
        ≡ cond (bytes_eq constant.now.name x) (Some constant.now.from) (lookup (bytes_eq x) cells.old.entries)) }
{
    match cells.insert(constant.name.clone()?, constant.from) {
        Ok(_) => Ok(()),
        Err(_) => Err(AllocError),
    }
}

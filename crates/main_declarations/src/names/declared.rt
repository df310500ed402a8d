// What is declared so far in the text.

ghost use Rattle.std.specs.Prelude.{◌≡◌, pos, length, replicate, IfOk, OnOk};
ghost use Rattle.bound_program.specs.Values.{var_of};
ghost use Rattle.main_declarations.specs.SoFar.{next_cells, with_var, changing, unchanging, nothing_declared};
ghost use Rattle.main_declarations.specs.Walks.{declared_of};

use crate::names::scopes::{Cells, Scope};
use bound_program::{Site, Var};
use indexmap::IndexMap;
use mesh_decl::{Mesh, Values};
use op_num::{Name, OutOfMemory};
use std::alloc::{AllocError, Global};

/// What is declared so far in the text. `cells` counts those of all variables, `filled` those of the mesh, `kernels`
/// the kernels; `externs` holds the numbers of the externs that are variables.
#[derive(Drop)]
pub struct Declared {
    pub mesh: Mesh,
    pub filled: u64,
    pub vars: Vec<Var>,
    pub cells: u32,
    pub externs: IndexMap<Name, u32>,
    pub sites: Vec<Site>,
    pub kernels: u32,
    pub names: Scope,
}

impl Declared {
    /// Nothing is declared.
    pub fn new(alloc: Global) -> Declared
        ensures { declared_of result ≡ nothing_declared }
    {
        Declared {
            mesh: Mesh::new(alloc),
            filled: 0,
            vars: Vec::new(alloc),
            cells: 0,
            externs: IndexMap::new(alloc),
            sites: Vec::new(alloc),
            kernels: 0,
            names: Scope {
                file: IndexMap::new(alloc),
                own: IndexMap::new(alloc),
                told: 0,
            },
        }
    }

    /// The number of the next variable.
    pub fn next_var(&self) -> Result<u32, OutOfMemory>
        ensures { IfOk result (λ n. n ≡ length (declared_of self.now).vars) }
    {
        let number = self.vars.len();
        if number >= 4294967295 {
            return Err(AllocError);
        }
        Ok(number as u32)
    }

    /// The cells of the next variable.
    pub fn next_cells(
        &self,
        of_file: bool,
        is_array: bool,
        count: u32,
    ) -> Result<Cells, OutOfMemory>
        ensures { IfOk result (λ c. c ≡ next_cells (declared_of self.now) of_file is_array count) }
    {
        let var = self.next_var()?;
        Ok(Cells {
            var,
            from: self.cells,
            count,
            is_array,
            of_file,
        })
    }

    /// One variable more. All have fewer than 2 ^ 32 cells.
    pub fn add_var(&mut self, var: Var) -> Result<(), OutOfMemory>
        ensures { OnOk result (declared_of self.new ≡ with_var (var_of var) (declared_of self.old)) }
    {
        let count = var.start.as_slice().len();
        if count > (4294967295 - self.cells) as usize {
            return Err(AllocError);
        }
        self.vars.push(var)?;
        self.cells += count as u32;
        Ok(())
    }
}

/// So many cells of 0.
pub fn zeros(alloc: Global, count: u32) -> Result<Values, OutOfMemory>
    ensures { IfOk result (λ zs. zs ≡ replicate count (pos 0)) }
{
    let items = vec![in alloc; 0; count as usize]?;
    Ok(Values::new(items))
}

/// A variable that isn't `const`, with these cells before the run.
pub fn changing(name: &Name, start: Values) -> Result<Var, OutOfMemory>
    ensures { IfOk result (λ v. var_of v ≡ changing name.now start) }
{
    Ok(Var {
        name: name.clone()?,
        start,
        constant: None,
        is_const: false,
    })
}

/// A variable that is `const`, with its first cell among the constants of kernels.
pub fn unchanging(
    alloc: Global,
    name: &Name,
    value: i32,
    constant: Option<u32>,
) -> Result<Var, OutOfMemory>
    ensures { IfOk result (λ v. var_of v ≡ unchanging name.now value constant) }
{
    let name = name.clone()?;
    let mut start = Vec::new(alloc);
    start.push(value)?;
    Ok(Var {
        name,
        start: Values::new(start),
        constant,
        is_const: true,
    })
}

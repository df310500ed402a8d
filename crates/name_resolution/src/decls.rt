// What names are declared as, and what a name means.

ghost use Rattle.std.specs.Prelude.{◌≡◌, ◌&&◌, ◌||◌, not, ◌++◌, ◌∷◌, [], None, IfOk, OnOk};
ghost use Rattle.name_resolution.specs.Scopes.{decl_in, declared, takes_no_index, needs_index, is_no_value, is_variable, is_extern};
ghost use Rattle.name_resolution.specs.Scopes.{is_counter, is_out_of_reach, is_read_only, means, decl_or, scope, repeated, use_breaches};
ghost use Rattle.name_resolution.specs.First.{least_from};

use crate::breaches::{Breach, TypeRule, note_if};
use c_tree::Ident;
use indexmap::IndexMap;
use op_num::{Name, OutOfMemory};
use std::alloc::AllocError;

/// What a name is declared as.
#[derive(Clone, Copy, PartialEq, Eq, Debug)]
pub enum Sort {
    /// `extern int x;`
    Extern,
    /// `extern int x[];`
    ExternArray,
    Kernel,
    Set,
    Map,
    Dat,
    /// a variable
    Scalar,
    /// an array of a fixed number of cells
    Array,
    /// a parameter of a kernel
    Param,
    /// the counter of a `for`
    Counter,
}

/// A declaration: the number of its name's token, what it declares, and the cells of that.
#[derive(Clone, Copy, PartialEq, Eq, Debug)]
pub struct Decl {
    pub at: usize,
    pub sort: Sort,
    /// whether it is declared `const`
    pub is_const: bool,
    /// whether it is one of the file
    pub of_file: bool,
    /// whether it is a variable of the file that kernels can read
    pub is_constant: bool,
    /// the first of its cells: of the kernel's locals, or of the constants; of a parameter its number
    pub from: u32,
    /// how many cells it has
    pub count: u32,
}

/// The names that are known at a place: those of the file, and the function's own.
#[derive(Clone, Copy)]
pub struct Scope<'a> {
    pub file: &'a IndexMap<Name, Decl>,
    pub own: &'a IndexMap<Name, Decl>,
}

impl Scope<'_> {
    /// What a name means: a function's own name hides one of the file.
    pub fn means(&self, name: &Name) -> Option<Decl>
        ensures { result ≡ means (scope self.now.file.now.entries self.now.own.now.entries) name.now }
    {
        match self.own.get(name) {
            Some(decl) => Some(*decl),
            None => self.file.get(name).copied(),
        }
    }

    /// What a known name means, or a variable without cells.
    pub fn decl(&self, name: &Name) -> Decl
        ensures { result ≡ decl_or (means (scope self.now.file.now.entries self.now.own.now.entries) name.now) }
    {
        match self.means(name) {
            Some(decl) => decl,
            None => Decl {
                at: 0,
                sort: Sort::Scalar,
                is_const: false,
                of_file: false,
                is_constant: false,
                from: 0,
                count: 0,
            },
        }
    }
}

/// Declares a name, where it isn't declared yet; where it is, that is a breach, and the name keeps its meaning.
pub fn declare(
    names: &mut IndexMap<Name, Decl>,
    first: &mut Option<Breach>,
    ident: &Ident,
    decl: Decl,
) -> Result<(), OutOfMemory>
    ensures names { IfOk result (λ _. names.new.entries ≡ declared ident.now.name decl names.old.entries) }
    ensures first { IfOk result (λ _. first.new ≡ least_from first.old (repeated ident.now names.old.entries)) }
{
    let is_known = names.contains_key(&ident.name);
    note_if(first, is_known, TypeRule::DuplicateName, ident.at);
    if is_known {
        return Ok(());
    }
    insert_new(names, ident.name.clone()?, decl)
}

// Adds a name that isn't there yet.
fn insert_new(names: &mut IndexMap<Name, Decl>, name: Name, decl: Decl) -> Result<(), OutOfMemory>
    requires { decl_in names.old.entries name ≡ None }
    ensures { OnOk result (names.new.entries ≡ names.old.entries ++ (name, decl) ∷ []) }
{
    match names.insert(name, decl) {
        Ok(_) => Ok(()),
        Err(_) => Err(AllocError),
    }
}

// What has no index.
fn takes_no_index(sort: Sort) -> bool
    ensures { result ≡ takes_no_index sort }
{
    !matches!(sort, Sort::ExternArray | Sort::Array | Sort::Param)
}

// What has to have an index.
fn needs_index(sort: Sort) -> bool
    ensures { result ≡ needs_index sort }
{
    matches!(sort, Sort::Array | Sort::Param)
}

// What is no value at all.
fn is_no_value(sort: Sort) -> bool
    ensures { result ≡ is_no_value sort }
{
    matches!(
        sort,
        Sort::ExternArray | Sort::Kernel | Sort::Set | Sort::Map | Sort::Dat
    )
}

fn is_variable(sort: Sort) -> bool
    ensures { result ≡ is_variable sort }
{
    matches!(sort, Sort::Scalar | Sort::Array)
}

fn is_extern(sort: Sort) -> bool
    ensures { result ≡ is_extern sort }
{
    matches!(sort, Sort::Extern | Sort::ExternArray)
}

// What a kernel can't read.
fn is_out_of_reach(decl: Decl) -> bool
    ensures { result ≡ is_out_of_reach decl }
{
    match decl.sort {
        Sort::Extern => true,
        Sort::Scalar | Sort::Array => decl.of_file && !decl.is_constant,
        _ => false,
    }
}

// What can't be assigned, where `is_fixed` says whether an `op_decl_const` before names it.
fn is_read_only(in_kernel: bool, is_fixed: bool, decl: Decl) -> bool
    ensures { result ≡ is_read_only in_kernel is_fixed decl }
{
    decl.is_const
        || is_extern(decl.sort)
        || is_fixed
        || (in_kernel && decl.of_file && is_variable(decl.sort))
}

/// How a name is used.
#[derive(Clone, Copy, PartialEq, Eq, Debug)]
pub struct Use {
    pub in_kernel: bool,
    pub is_indexed: bool,
    pub is_target: bool,
    /// whether an `op_decl_const` before names it
    pub is_fixed: bool,
}

// Whether a kernel uses what it can't read.
fn is_unreadable(how: Use, decl: Decl) -> bool
    ensures { result ≡ (how.in_kernel && is_out_of_reach decl) }
{
    how.in_kernel && is_out_of_reach(decl)
}

// Whether what has no index has one here.
fn indexes_no_array(how: Use, decl: Decl) -> bool
    ensures { result ≡ (how.is_indexed && takes_no_index decl.sort) }
{
    how.is_indexed && takes_no_index(decl.sort)
}

// Whether it is no value, or has to have an index and has none here.
fn is_no_scalar(how: Use, decl: Decl) -> bool
    ensures { result ≡ (is_no_value decl.sort || (not how.is_indexed && needs_index decl.sort)) }
{
    is_no_value(decl.sort) || (!how.is_indexed && needs_index(decl.sort))
}

// Whether a counter is assigned.
fn assigns_counter(how: Use, decl: Decl) -> bool
    ensures { result ≡ (how.is_target && is_counter decl.sort) }
{
    how.is_target && matches!(decl.sort, Sort::Counter)
}

// Whether what can't be assigned is.
fn assigns_read_only(how: Use, decl: Decl) -> bool
    ensures { result ≡ (how.is_target && is_read_only how.in_kernel how.is_fixed decl) }
{
    how.is_target && is_read_only(how.in_kernel, how.is_fixed, decl)
}

/// Judges the use of a name by what it means.
#[tactic(auto, using(crate::proofs::Firsts::least_append))]
pub fn judge_use(first: &mut Option<Breach>, how: Use, at: usize, meaning: Option<Decl>)
    ensures { first.new ≡ least_from first.old (use_breaches how at meaning) }
{
    match meaning {
        None => note_if(first, true, TypeRule::UnknownName, at),
        Some(decl) => {
            note_if(first, is_unreadable(how, decl), TypeRule::UnknownName, at);
            note_if(first, indexes_no_array(how, decl), TypeRule::NotAnArray, at);
            note_if(first, is_no_scalar(how, decl), TypeRule::NotAScalar, at);
            note_if(
                first,
                assigns_counter(how, decl),
                TypeRule::AssignsCounter,
                at,
            );
            note_if(
                first,
                assigns_read_only(how, decl),
                TypeRule::AssignsConst,
                at,
            );
        }
    }
}

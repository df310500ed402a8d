// What a name of `main` means where it stands.

ghost use Rattle.std.specs.Prelude.{◌≡◌, ◌++◌, ◌∷◌, [], None, IfOk, OnOk};
ghost use Rattle.main_declarations.specs.Names.{named_in, means, known, counted_later, declare, declare_in_file, cut, scope_of};

use indexmap::IndexMap;
use op_num::{Name, OutOfMemory};
use std::alloc::AllocError;

/// The cells of a variable: `count` from the cell `from` on, among the cells of all variables.
#[derive(Clone, Copy, PartialEq, Eq, Debug)]
pub struct Cells {
    pub var: u32,
    pub from: u32,
    pub count: u32,
    pub is_array: bool,
    pub of_file: bool,
}

/// What a name stands for.
#[derive(Clone, Copy, PartialEq, Eq, Debug)]
pub enum Meaning {
    /// `extern int x;` with its value
    Extern(i32),
    /// `extern int x[];`, whose values are those of its entry
    ExternArray,
    /// a kernel, and how many parameters it takes
    Kernel { number: u32, params: usize },
    Set(u32),
    Map(u32),
    Dat(u32),
    Variable(Cells),
    /// a `const` name with its value
    Fixed(i32, Cells),
    /// a `const` name of a block or `if`, whose value is told when `main` is unrolled; its number among such names
    FixedLater(u32, Cells),
    /// a counter, or a `const` name of a `for`, which is no variable; its number among such names
    Turning(u32),
}

/// The names that are known at a place: those of the file, and those of `main`, which hide them; and how many of the
/// latter have a value that is told when `main` is unrolled.
#[derive(Drop)]
pub struct Scope {
    pub file: IndexMap<Name, Meaning>,
    pub own: IndexMap<Name, Meaning>,
    pub told: u32,
}

impl Scope {
    /// What a name means.
    pub fn means(&self, name: &Name) -> Option<Meaning>
        ensures { result ≡ means (scope_of self.now) name.now }
    {
        match self.own.get(name) {
            Some(meaning) => Some(*meaning),
            None => self.file.get(name).copied(),
        }
    }

    /// The name of `main` is known from here on.
    pub fn declare(&mut self, name: &Name, meaning: Meaning) -> Result<(), OutOfMemory>
        ensures { OnOk result (scope_of self.new ≡ declare name.now meaning (scope_of self.old)) }
    {
        let told = counted_later(meaning, self.told)?;
        add(&mut self.own, name, meaning)?;
        self.told = told;
        Ok(())
    }

    /// The name of the file is known from here on.
    pub fn declare_in_file(&mut self, name: &Name, meaning: Meaning) -> Result<(), OutOfMemory>
        ensures { OnOk result (scope_of self.new ≡ declare_in_file name.now meaning (scope_of self.old)) }
    {
        add(&mut self.file, name, meaning)
    }

    /// The names of a block end with it: there were so many before, of which so many are told later.
    pub fn cut(&mut self, known: usize, told: u32)
        ensures { scope_of self.new ≡ cut known told (scope_of self.old) }
    {
        self.own.truncate(known);
        self.told = told;
    }
}

// One more, where the value of a name is told when `main` is unrolled.
fn counted_later(meaning: Meaning, n: u32) -> Result<u32, OutOfMemory>
    ensures { IfOk result (λ r. r ≡ counted_later meaning n) }
{
    match meaning {
        Meaning::FixedLater(..) | Meaning::Turning(_) => match n.checked_add(1) {
            Some(n) => Ok(n),
            None => Err(AllocError),
        },
        _ => Ok(n),
    }
}

// Declares a name; one that is known keeps its meaning.
fn add(
    names: &mut IndexMap<Name, Meaning>,
    name: &Name,
    meaning: Meaning,
) -> Result<(), OutOfMemory>
    ensures { OnOk result (names.new.entries ≡ known name.now meaning names.old.entries) }
{
    if names.contains_key(name) {
        return Ok(());
    }
    insert_new(names, name.clone()?, meaning)
}

// Adds a name that isn't there yet.
fn insert_new(
    names: &mut IndexMap<Name, Meaning>,
    name: Name,
    meaning: Meaning,
) -> Result<(), OutOfMemory>
    requires { named_in names.old.entries name ≡ None }
    ensures { OnOk result (names.new.entries ≡ names.old.entries ++ (name, meaning) ∷ []) }
{
    match names.insert(name, meaning) {
        Ok(_) => Ok(()),
        Err(_) => Err(AllocError),
    }
}

// Sets of components of arguments, as one word of 64 bits for each of 16 arguments.

ghost use Rattle.std.specs.Prelude.{◌≡◌, ℕ, false, ◌<◌, ◌&&◌, ◌||◌, nat_eq};
ghost use Rattle.access_check.specs.States.{has_component};

/// How many arguments a parallel loop has at most.
pub const ARGUMENTS: usize = 16;

/// Components of arguments: component i of argument a is among them where bit i of word a, counted from the lowest, is
/// 1.
#[derive(Clone, Copy)]
pub struct Components {
    pub words: [u64; ARGUMENTS],
}

/// No component.
pub fn no_components() -> Components
    ensures { (a i : ℕ) → has_component result a i ≡ false }
{
    Components {
        words: [0; ARGUMENTS],
    }
}

/// Whether a component is among them.
pub fn is_among(components: &Components, arg: u32, index: u32) -> bool
    requires arg { arg < 16 }
    requires index { index < 64 }
    ensures { result ≡ has_component components.now arg index }
{
    (components.words[arg as usize] >> index) & 1 == 1
}

/// Takes in one more component.
pub fn add_component(components: &mut Components, arg: u32, index: u32)
    requires arg { arg < 16 }
    requires index { index < 64 }
    ensures { (a i : ℕ) → has_component components.new a i ≡ ((nat_eq arg a && nat_eq index i) || has_component components.old a i) }
{
    components.words[arg as usize] |= 1 << index;
}

/// Keeps the components that are among others too.
pub fn keep_common(components: &mut Components, others: &Components)
    ensures { (a i : ℕ) → has_component components.new a i ≡ (has_component components.old a i && has_component others.now a i) }
{
    for a in 0..ARGUMENTS {
        components.words[a] &= others.words[a];
    }
}

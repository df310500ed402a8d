// Broken rules, and the first of them.

ghost use Rattle.std.specs.Prelude.{◌≡◌};
ghost use Rattle.name_resolution.specs.First.{number_of, is_before, earlier, least_from, breach_if};

/// A rule on names and types.
#[derive(Clone, Copy, PartialEq, Eq, Debug)]
pub enum TypeRule {
    UnknownName,
    DuplicateName,
    NotAnArray,
    NotAScalar,
    AssignsCounter,
    AssignsConst,
    TooMuchWork,
}

/// A broken rule, and the number of the token at which it is broken.
#[derive(Clone, Copy, PartialEq, Eq, Debug)]
pub struct Breach {
    pub rule: TypeRule,
    pub at: usize,
}

// The number of a rule, from 1.
fn number_of(rule: TypeRule) -> u8
    ensures { result ≡ number_of rule }
{
    match rule {
        TypeRule::UnknownName => 1,
        TypeRule::DuplicateName => 2,
        TypeRule::NotAnArray => 3,
        TypeRule::NotAScalar => 4,
        TypeRule::AssignsCounter => 5,
        TypeRule::AssignsConst => 6,
        TypeRule::TooMuchWork => 7,
    }
}

// Whether a breach is at an earlier token than another, or at the same token and of a rule with a lower number.
fn is_before(a: Breach, b: Breach) -> bool
    ensures { result ≡ is_before a b }
{
    a.at < b.at || (a.at == b.at && number_of(a.rule) < number_of(b.rule))
}

/// Keeps the first of the breaches so far and of this one.
pub fn note(first: &mut Option<Breach>, rule: TypeRule, at: usize)
    ensures { first.new ≡ earlier first.old (record { rule = rule; at = at }) }
{
    let breach = Breach { rule, at };
    match *first {
        Some(other) if !is_before(breach, other) => {}
        _ => *first = Some(breach),
    }
}

/// Keeps the first of the breaches so far and of this one, where the test holds.
pub fn note_if(first: &mut Option<Breach>, test: bool, rule: TypeRule, at: usize)
    ensures { first.new ≡ least_from first.old (breach_if test rule at) }
{
    if test {
        note(first, rule, at);
    }
}

// The breach of a rule that counts, of those found so far.

ghost use Rattle.std.specs.Prelude.{◌≡◌};
ghost use Rattle.kernel_model.specs.Refusals.{number_of};
ghost use Rattle.kernel_model.specs.Walk.{precedes, noted_if};
ghost use Rattle.access_check.specs.Found.{rule_of, breach_of, found_of};

use kernel_model::types::Pos;

/// The access rules, in the order in which they count at one place.
#[derive(Clone, Copy, Debug, PartialEq, Eq)]
pub enum Rule {
    WritesRead,
    ReadsInc,
    IncNotSum,
    ReadsUnwritten,
    NotAllWritten,
    WriteIndexNotStatic,
    LiteralIndexOut,
    MinMaxForm,
}

/// A rule that is broken, and where.
#[derive(Clone, Copy, Debug, PartialEq, Eq)]
pub struct Breach {
    pub rule: Rule,
    pub at: Pos,
}

fn number(rule: Rule) -> u32
    ensures { result ≡ number_of (rule_of rule) }
{
    match rule {
        Rule::WritesRead => 1,
        Rule::ReadsInc => 2,
        Rule::IncNotSum => 3,
        Rule::ReadsUnwritten => 4,
        Rule::NotAllWritten => 5,
        Rule::WriteIndexNotStatic => 6,
        Rule::LiteralIndexOut => 7,
        Rule::MinMaxForm => 8,
    }
}

fn counts_before(rule: Rule, at: Pos, other: Breach) -> bool
    ensures { result ≡ precedes (rule_of rule) at (breach_of other) }
{
    at.line < other.at.line
        || (at.line == other.at.line && at.column < other.at.column)
        || ((at.line == other.at.line && at.column == other.at.column)
            && number(rule) < number(other.rule))
}

/// What is found with that rule, where it is broken.
pub fn with_rule(found: Option<Breach>, broken: bool, rule: Rule, at: Pos) -> Option<Breach>
    ensures { found_of result ≡ noted_if broken (rule_of rule) at (found_of found) }
{
    if !broken {
        return found;
    }
    match found {
        None => Some(Breach { rule, at }),
        Some(other) => {
            if counts_before(rule, at, other) {
                Some(Breach { rule, at })
            } else {
                Some(other)
            }
        }
    }
}

// Laws: sources have one translation and bytes one restoration, and restoring undoes translating.

ghost use Rattle.std.specs.Prelude.{◌≡◌, ℕ, List};
ghost use Rattle.c_tree.specs.Tree.{ProgramTree};
ghost use Rattle.op_translate.specs.Translation.{Outcome, Translates, Restores, RestoresTranslations};

/// A law: a source has one translation or refusal.
pub fn one_translation()
    ensures { (bytes : List ℕ) (p : ProgramTree) (a b : Outcome) → Translates bytes p a → Translates bytes p b → a ≡ b }
{
    c_tree::lexer::one_outcome();
}

/// A law: bytes have one restoration or refusal.
pub fn one_restoration()
    ensures { (bytes : List ℕ) (a b : Outcome) → Restores bytes a → Restores bytes b → a ≡ b }
{
    c_tree::lexer::one_outcome();
}

/// A law: what is translated can be restored, and what is restored has tokens of the same kinds as the source.
pub fn restores_translations()
    ensures { RestoresTranslations }
{
    c_tree::lexer::one_outcome();
}

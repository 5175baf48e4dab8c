// A test's value, as it was given and folded.
ghost use Rattle.std.specs.Prelude.{◌≡◌, IfOk, string_bytes};
ghost use Rattle.filter_expr.specs.Folding.{folded};

use caseless::default_case_fold_str;
use std::alloc::{AllocError, Global};
use std::marker::Model;

/// What a text folds to under Unicode's default caseless folding.
#[tactic(auto, unfolding(crate::specs::Folding::folded))]
pub(crate) fn fold(alloc: Global, text: &str) -> Result<String, AllocError>
    ensures { IfOk result (λ folds_to. string_bytes folds_to ≡ folded text.now) }
{
    default_case_fold_str(alloc, text)
}

/// The value of a test, and what it folds to.
#[derive(Debug, Drop)]
pub(crate) struct TestValue {
    text: String,
    folds_to: String,
}

impl Model for TestValue {
    ghost use Rattle.std.specs.Prelude.{◌≡◌, ℕ, List, string_bytes};
    ghost use Rattle.filter_expr.specs.Folding.{folded};

    ghost Value = { List ℕ };

    ghost view = { λ v. string_bytes v.text };

    ghost invariant = { λ v. string_bytes v.folds_to ≡ folded (string_bytes v.text) };
}

impl TestValue {
    pub(crate) fn new(alloc: Global, text: String) -> Result<Self, AllocError>
        ensures { IfOk result (λ value. value ≡ string_bytes text) }
    {
        let folds_to = fold(alloc, text.as_str())?;
        Ok(TestValue { text, folds_to })
    }

    pub(crate) fn text(&self) -> &str
        ensures { result.now ≡ self.now }
    {
        self.text.as_str()
    }

    pub(crate) fn folded(&self) -> &str
        ensures { result.now ≡ folded self.now }
    {
        self.folds_to.as_str()
    }
}

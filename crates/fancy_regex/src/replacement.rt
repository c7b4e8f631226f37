//! What a replacement can be.

ghost use Rattle.std.specs.Prelude.{◌≡◌, ℕ, IfOk, List};
ghost use Rattle.fancy_analysis.specs.Names.{names_of};
ghost use Rattle.fancy_replace.specs.Parts.{parts_text};
ghost use Rattle.fancy_replace.specs.Reading.{Names, expansion};
ghost use Rattle.fancy_replace.specs.Templates.{template_text};

use fancy_replace::parts::Parts;
use fancy_replace::replacer::{NoExpand, Replacer};
use fancy_replace::template::Template;
use std::alloc::{AllocError, Global};
use std::collections::BTreeMap;

/// What a replacement can be:
///
/// - a `&str`, in which `$1`, `${1}`, `$name` and `${name}` are groups, and `$$` is a dollar sign;
/// - a `Template`, which is such a text, read once;
/// - `NoExpand`, a text that is written as it is;
/// - `Parts`, a list of texts and groups.
///
/// A group that is not set, or that the pattern does not have, writes nothing.
pub trait Replacement {
    // What it writes, by the names of the groups, the text, and the start and end of each group of the match.
    ghost replacement_text: { Self → Names → List ℕ → List ℕ → List ℕ };

    type By: Replacer + Drop;

    /// Makes the `Replacer` that writes the replacement. `names` has the numbers of the groups with each name.
    ///
    /// # Errors
    ///
    /// `AllocError` if an allocation fails.
    fn replacer(
        self,
        alloc: Global,
        names: &BTreeMap<String, Vec<usize>>,
    ) -> Result<Self::By, AllocError>
        ensures { IfOk result (λ by. Self.By.replacement_text by
            ≡ replacement_text self (names_of names.now.entries)) };
}

/// A text with references to groups, which `Template` reads.
impl<'a> Replacement for &'a str {
    ghost replacement_text = { λ text names. expansion names text.now };

    type By = Template;

    fn replacer(
        self,
        alloc: Global,
        names: &BTreeMap<String, Vec<usize>>,
    ) -> Result<Template, AllocError> {
        Template::new(alloc, self, names)
    }
}

/// The text as it is.
impl<'a> Replacement for NoExpand<'a> {
    ghost replacement_text = { λ r names text numbers. r.0.now };

    type By = NoExpand<'a>;

    fn replacer(
        self,
        _alloc: Global,
        _names: &BTreeMap<String, Vec<usize>>,
    ) -> Result<NoExpand<'a>, AllocError> {
        Ok(self)
    }
}

/// These texts and groups.
impl<'a> Replacement for Parts<'a> {
    ghost replacement_text = { λ r names text numbers. parts_text text numbers r.0.now };

    type By = Parts<'a>;

    fn replacer(
        self,
        _alloc: Global,
        _names: &BTreeMap<String, Vec<usize>>,
    ) -> Result<Parts<'a>, AllocError> {
        Ok(self)
    }
}

/// A text that was read before.
impl Replacement for Template {
    ghost replacement_text = { λ template names. template_text template };

    type By = Template;

    fn replacer(
        self,
        _alloc: Global,
        _names: &BTreeMap<String, Vec<usize>>,
    ) -> Result<Template, AllocError> {
        Ok(self)
    }
}

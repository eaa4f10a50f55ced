//! Names of keys and of scopes.

ghost use Rattle.std.specs.Prelude.{◌≡◌, ◌++◌, [], ◌∷◌, IfOk, OnOk};
ghost use Rattle.dita_doc.specs.ClassValue as class_value_spec;
ghost use Rattle.key_scopes.specs.Named as spec;
ghost use Rattle.map_spec.specs.Scopes as scopes_spec;

use dita_doc::{Text, split_word};
use std::alloc::{AllocError, Global};
use std::collections::BTreeSet;

/// The names that a node has written, each once: those that can be used, and those that can't.
#[derive(Drop)]
pub(crate) struct Names<'a> {
    pub good: Vec<&'a str>,
    pub bad: Vec<&'a str>,
    known: BTreeSet<&'a str>,
}

impl<'a> Names<'a> {
    /// The names among texts.
    pub(crate) fn among(alloc: Global, texts: &'a [Text]) -> Result<Names<'a>, AllocError>
        ensures { IfOk result (λ names. spec.AreNames texts.now names) }
    {
        let mut names = Names::new(alloc);
        for text in texts {
            names.push(text.as_str())?;
        }
        Ok(names)
    }

    /// The words of a value.
    pub(crate) fn within(alloc: Global, value: &'a str) -> Result<Names<'a>, AllocError>
        ensures { IfOk result (λ names.
            spec.AreNames (class_value_spec.words_of value.now) names) }
    {
        let mut names = Names::new(alloc);
        let mut rest = value.as_bytes();
        while let Some((word, more)) = split_word(rest) {
            names.push(unsafe { str::from_utf8_unchecked(word) })?;
            rest = more;
        }
        Ok(names)
    }

    fn new(alloc: Global) -> Names<'a>
        ensures { spec.AreNames [] result }
    {
        Names {
            good: Vec::new(alloc),
            bad: Vec::new(alloc),
            known: BTreeSet::new(alloc),
        }
    }

    fn push(&mut self, name: &'a str) -> Result<(), AllocError>
        ensures { (written : spec.Texts) → spec.AreNames written self.old
            → OnOk result (spec.AreNames (written ++ name.now ∷ []) self.new) }
    {
        if !self.known.insert(name)? {
            return Ok(());
        }
        if is_good_name(name.as_bytes()) {
            self.good.push(name)?;
        } else {
            self.bad.push(name)?;
        }
        Ok(())
    }
}

fn is_good_name(name: &[u8]) -> bool
    ensures { result ≡ scopes_spec.is_good_name name.now }
{
    !name.iter().any(|byte| is_bad_byte(*byte))
}

// Whether it is `{`, `}`, `[`, `]`, `/`, `#` or `?`.
fn is_bad_byte(byte: u8) -> bool
    ensures { result ≡ scopes_spec.is_bad_byte byte }
{
    matches!(byte, b'{' | b'}' | b'[' | b']' | b'/' | b'#' | b'?')
}

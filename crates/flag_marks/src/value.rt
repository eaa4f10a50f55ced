//! The texts of the marks that one value gives.

ghost use Rattle.std.specs.Prelude.{◌≡◌, ◌++◌, [], ◌∷◌, IfOk, OnOk};
ghost use Rattle.dita_doc.specs.ClassValue.{words_of};
ghost use Rattle.flag_marks.specs.Marks as spec;

use dita_doc::{Action, List, NoMemory, Text, split_word};
use ditaval_rules::RuleTable;
use std::alloc::Global;

/// Appends the text of a mark for each token of the value that the rules flag; a value of groups
/// gives none.
pub(crate) fn push_value(
    alloc: Global,
    texts: &mut List<Text>,
    table: &RuleTable,
    att: &str,
    value: &str,
) -> Result<(), NoMemory>
    ensures { OnOk result (texts.new
        ≡ texts.old ++ spec.marks_of_value table.now att.now value.now) }
{
    if value.as_bytes().contains(&b'(') {
        return Ok(());
    }
    push_words(alloc, texts, table, att, value)
}

// The same without that test.
fn push_words(
    alloc: Global,
    texts: &mut List<Text>,
    table: &RuleTable,
    att: &str,
    value: &str,
) -> Result<(), NoMemory>
    ensures { OnOk result (texts.new
        ≡ texts.old ++ spec.marks_of_tokens table.now att.now (words_of value.now)) }
{
    let mut rest = value.as_bytes();
    while let Some((word, more)) = split_word(rest) {
        push_word(
            alloc,
            texts,
            table,
            att,
            unsafe { str::from_utf8_unchecked(word) },
        )?;
        rest = more;
    }
    Ok(())
}

// Appends the text of a token's mark, if the rules flag it.
fn push_word(
    alloc: Global,
    texts: &mut List<Text>,
    table: &RuleTable,
    att: &str,
    word: &str,
) -> Result<(), NoMemory>
    ensures { OnOk result (texts.new
        ≡ texts.old ++ spec.marks_of_tokens table.now att.now (word.now ∷ [])) }
{
    if table.decided(att.as_bytes(), word.as_bytes()) == Action::Flag {
        texts.push(mark_text(alloc, att, word)?)?;
    }
    Ok(())
}

fn mark_text(alloc: Global, att: &str, word: &str) -> Result<Text, NoMemory>
    ensures { IfOk result (λ text. text ≡ spec.mark_text att.now word.now) }
{
    let mut text = Text::from_str(alloc, "flag-")?;
    text.append(att)?;
    text.append("-")?;
    text.append(word)?;
    Ok(text)
}

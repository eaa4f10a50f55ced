//! The tokens of conditional attributes.

ghost use Rattle.std.specs.Prelude.{◌≡◌, ◌<◌, ◌==◌, ◌++◌, [], ◌∷◌, codes, length, map, Some, IfOk, OnOk, MatchOption, if◌then◌else◌};
ghost use Rattle.std.specs.Option.{option_copied};
ghost use Rattle.attr_cascade.specs.Nearest as nearest_spec;
ghost use Rattle.attr_cascade.specs.Tokens as spec;
ghost use Rattle.dita_doc.specs.Bytes.{space};
ghost use Rattle.dita_doc.specs.ClassValue as class_value_spec;
ghost use Rattle.ditaval_rules.specs.Verdict as verdict_spec;
ghost use Rattle.map_spec.specs.Cascade as cascade_spec;
ghost use Rattle.plan_nodes.specs.Preorder as preorder_spec;
ghost use Rattle.reader_spec.specs.World.{World};

use crate::nearest::nearest_at;
use dita_doc::{PlanNode, Text, split_word};
use plan_nodes::NodeElements;
use std::alloc::{AllocError, Global};
use std::collections::BTreeSet;

// Tokens that hold at nodes, and what they are as a value: with one space between them.
#[derive(Drop)]
struct TokenList<'a> {
    tokens: Vec<&'a str>,
    value: Text,
}

/// For each node the tokens of one conditional attribute. Nodes with the same tokens share a list.
#[derive(Drop)]
pub(crate) struct TokenTable<'a> {
    pub name: &'static str,
    lists: Vec<TokenList<'a>>,
    // The list of each node, if it has tokens.
    places: Vec<Option<usize>>,
}

impl<'a> TokenTable<'a> {
    /// The tokens of an attribute for all nodes. `cascades` has the nearest value of the attribute
    /// `cascade` for each node.
    pub(crate) fn of(
        alloc: Global,
        homes: &'a NodeElements,
        nodes: &[PlanNode],
        cascades: &[Option<&str>],
        name: &'static str,
    ) -> Result<TokenTable<'a>, AllocError>
        ensures { (world : World) → homes.now ≡ map (cascade_spec.whole_at world) nodes.now
            → preorder_spec.HasParentsBefore nodes.now
            → nearest_spec.seen cascades.now
            ≡ nearest_spec.nearest_of world (codes "cascade") nodes.now
            → IfOk result (λ table. spec.IsTableOf world nodes.now name.now table) }
    {
        let mut lists = Vec::new(alloc);
        let mut places: Vec<Option<usize>> = Vec::new(alloc);
        for (at, node) in nodes.iter().enumerate() {
            let above = place_at(&places, node.parent as usize);
            let own = homes.value(at, name);
            let place = place_of(alloc, &mut lists, above, own, merges(cascades, at))?;
            places.push(place)?;
        }
        Ok(TokenTable {
            name,
            lists,
            places,
        })
    }

    /// The tokens at a node as a value, if it has some.
    pub(crate) fn value_at(&self, at: usize) -> Option<&str>
        ensures { (world : World) (name : spec.Text) (nodes : spec.Nodes) → at < length nodes
            → spec.IsTableOf world nodes name self.now
            → option_copied result ≡ spec.value_of (spec.tokens_at world name nodes at) }
    {
        let place = place_at(&self.places, at)?;
        let list = self.lists.get(place)?;
        Some(list.value.as_str())
    }
}

// Whether the tokens of the node at this place stand beside those above it.
fn merges(cascades: &[Option<&str>], at: usize) -> bool
    ensures { result ≡ spec.value_merges (nearest_spec.value_at (nearest_spec.seen cascades.now) at) }
{
    match nearest_at(cascades, at) {
        Some(value) => value != "nomerge",
        None => true,
    }
}

fn place_at(places: &[Option<usize>], at: usize) -> Option<usize>
    ensures { result ≡ spec.place_at places.now at }
{
    *places.get(at)?
}

// The place of the list for a node: that above it, if it has no value of its own. A value of groups
// counts as not written.
fn place_of<'a>(
    alloc: Global,
    lists: &mut Vec<TokenList<'a>>,
    above: Option<usize>,
    own: Option<&'a str>,
    merges: bool,
) -> Result<Option<usize>, AllocError>
    ensures { (tokens : spec.Texts) → spec.IsTokens lists.old.items above tokens
        → IfOk result (λ place. spec.IsPlaceOf lists.old.items lists.new.items place
        (cascade_spec.merged_tokens merges (spec.own_tokens (option_copied own.entry)) tokens)) }
{
    match own {
        Some(own) if !is_grouped(own) => place_of_own(alloc, lists, above, own, merges),
        _ => Ok(above),
    }
}

fn is_grouped(value: &str) -> bool
    ensures { result ≡ verdict_spec.is_grouped value.now }
{
    value.as_bytes().iter().any(|byte| *byte == b'(')
}

// The place of the list for a node with a value of its own. Merged, its own tokens that are not
// there yet come behind those above; else they count alone.
fn place_of_own<'a>(
    alloc: Global,
    lists: &mut Vec<TokenList<'a>>,
    above: Option<usize>,
    own: &'a str,
    merges: bool,
) -> Result<Option<usize>, AllocError>
    ensures { (tokens : spec.Texts) → spec.IsTokens lists.old.items above tokens
        → IfOk result (λ place. spec.IsPlaceOf lists.old.items lists.new.items place
        (cascade_spec.merged_tokens merges (Some (class_value_spec.words_of own.now)) tokens)) }
{
    if !merges {
        let tokens = words_in(alloc, own)?;
        return put_list(alloc, lists, tokens);
    }
    let around = list_at(lists, above);
    match merged(alloc, around, own)? {
        Some(tokens) => put_list(alloc, lists, tokens),
        None => Ok(above),
    }
}

// The list at a place.
fn list_at<'b, 'a: 'b>(
    lists: &'b [TokenList<'a>],
    place: Option<usize>,
) -> Option<&'b TokenList<'a>>
    ensures { (tokens : spec.Texts) → spec.IsTokens lists.now place tokens
        → spec.tokens_of (option_copied result) ≡ tokens }
{
    lists.get(place?)
}

// Puts a list of tokens behind the others, unless there are none, and gives its place.
fn put_list<'a>(
    alloc: Global,
    lists: &mut Vec<TokenList<'a>>,
    tokens: Vec<&'a str>,
) -> Result<Option<usize>, AllocError>
    ensures { IfOk result (λ place. spec.IsPlaceOf lists.old.items lists.new.items place
        (spec.texts tokens.entry.items)) }
{
    if tokens.is_empty() {
        return Ok(None);
    }
    let value = spaced(alloc, &tokens)?;
    let at = lists.len();
    lists.push(TokenList { tokens, value })?;
    Ok(Some(at))
}

// The tokens above with those of a value that are not there yet behind them; nothing if there are
// none of these.
fn merged<'a>(
    alloc: Global,
    above: Option<&TokenList<'a>>,
    own: &'a str,
) -> Result<Option<Vec<&'a str>>, AllocError>
    ensures { IfOk result (λ made. MatchOption made
        (cascade_spec.with_new (spec.tokens_of (option_copied above.entry))
        (class_value_spec.words_of own.now) ≡ spec.tokens_of (option_copied above.entry))
        (λ tokens. cascade_spec.with_new (spec.tokens_of (option_copied above.entry))
        (class_value_spec.words_of own.now) ≡ spec.texts tokens.items)) }
{
    let mut tokens = Vec::new(alloc);
    let mut known = BTreeSet::new(alloc);
    put_above(&mut tokens, &mut known, above)?;
    let count = tokens.len();
    put_new(&mut tokens, &mut known, &words_in(alloc, own)?)?;
    Ok(if_longer(tokens, count))
}

fn if_longer<'a>(tokens: Vec<&'a str>, count: usize) -> Option<Vec<&'a str>>
    ensures { MatchOption result (length tokens.entry.items ≡ count)
        (λ longer. longer.items ≡ tokens.entry.items) }
{
    if tokens.len() == count {
        None
    } else {
        Some(tokens)
    }
}

// Puts the tokens of a list behind no others.
fn put_above<'a>(
    tokens: &mut Vec<&'a str>,
    known: &mut BTreeSet<&'a str>,
    above: Option<&TokenList<'a>>,
) -> Result<(), AllocError>
    ensures { tokens.old.items ≡ [] → known.old.keys ≡ []
        → OnOk result (spec.AreTexts tokens.new.items known.new.keys
        (spec.tokens_of (option_copied above.entry))) }
{
    match above {
        Some(above) => put_all(tokens, known, &above.tokens),
        None => Ok(()),
    }
}

// Puts texts behind no others.
fn put_all<'a>(
    tokens: &mut Vec<&'a str>,
    known: &mut BTreeSet<&'a str>,
    texts: &[&'a str],
) -> Result<(), AllocError>
    ensures { tokens.old.items ≡ [] → known.old.keys ≡ []
        → OnOk result (spec.AreTexts tokens.new.items known.new.keys (spec.texts texts.now)) }
{
    for text in texts {
        known.insert(*text)?;
        tokens.push(*text)?;
    }
    Ok(())
}

// Puts those texts behind others that are not there yet.
fn put_new<'a>(
    tokens: &mut Vec<&'a str>,
    known: &mut BTreeSet<&'a str>,
    texts: &[&'a str],
) -> Result<(), AllocError>
    ensures { (all : spec.Texts) → spec.AreTexts tokens.old.items known.old.keys all
        → OnOk result (spec.texts tokens.new.items
        ≡ cascade_spec.with_new all (spec.texts texts.now)) }
{
    for text in texts {
        put_one(tokens, known, text)?;
    }
    Ok(())
}

fn put_one<'a>(
    tokens: &mut Vec<&'a str>,
    known: &mut BTreeSet<&'a str>,
    text: &'a str,
) -> Result<(), AllocError>
    ensures { (all : spec.Texts) → spec.AreTexts tokens.old.items known.old.keys all
        → OnOk result (spec.AreTexts tokens.new.items known.new.keys
        (spec.with_one all text.now)) }
{
    if known.insert(text)? {
        tokens.push(text)?;
    }
    Ok(())
}

// The words of a value.
fn words_in<'a>(alloc: Global, value: &'a str) -> Result<Vec<&'a str>, AllocError>
    ensures { IfOk result (λ words. spec.texts words.items
        ≡ class_value_spec.words_of value.now) }
{
    let mut words = Vec::new(alloc);
    let mut rest = value.as_bytes();
    while let Some((word, more)) = split_word(rest) {
        words.push(unsafe { str::from_utf8_unchecked(word) })?;
        rest = more;
    }
    Ok(words)
}

// Tokens with a space between them.
fn spaced(alloc: Global, tokens: &[&str]) -> Result<Text, AllocError>
    ensures { IfOk result (λ value. value ≡ cascade_spec.spaced (spec.texts tokens.now)) }
{
    let mut value = Text::new(alloc);
    for (at, token) in tokens.iter().enumerate() {
        append_token(&mut value, at, token)?;
    }
    Ok(value)
}

// Appends the token at a place, behind a space if it is not the first.
fn append_token(value: &mut Text, at: usize, token: &str) -> Result<(), AllocError>
    ensures { OnOk result (value.new ≡ (if at == 0 then value.old ++ token.now
        else value.old ++ space ∷ token.now)) }
{
    if at == 0 {
        return value.append(token);
    }
    value.append(" ")?;
    value.append(token)
}

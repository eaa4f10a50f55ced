//! The walk over a body.

ghost use Rattle.std.specs.Prelude.{◌≡◌, ◌+◌, ◌++◌, ◌<◌, IfOk, OnOk};
ghost use Rattle.dita_doc.specs.HtmlEscapes as html_escapes_spec;
ghost use Rattle.dita_doc.specs.Siblings as siblings_spec;
ghost use Rattle.dita_doc.specs.Tree as tree_spec;
ghost use Rattle.readers.specs.Named.{AreNodesOf};
ghost use Rattle.html_blocks.specs.Opened as opened_spec;
ghost use Rattle.html_blocks.specs.Walk as walk_spec;
ghost use Rattle.map_spec.specs.Written.{Written};
ghost use Rattle.html_spec.specs.Blocks as blocks_spec;

use crate::context::HtmlContext;
use crate::element::Element;
use crate::overlay::Overlay;
use crate::page::BodyText;
use dita_doc::{
    Anchor, First, Html, List, Mark, NoMemory, Node, Resolved, Siblings, Text, append_html,
};
use std::alloc::{AllocError, Global};

/// The HTML of a page's body, and the faults of its elements. Of several anchors at one place the
/// first counts; of several marks at one place all do, in their order. A mark of a text, or of an
/// element that has no tag, is not shown. Anchors that stand by their places, at most one at each,
/// are searched by halving, and so are marks whose places never fall.
pub fn body_html(
    alloc: Global,
    body: &Resolved,
    anchors: &List<Anchor>,
    marks: &List<Mark>,
) -> Result<Html, NoMemory>
    ensures { (nodes : Written) → AreNodesOf body.now nodes
        → IfOk result (λ html. html ≡ blocks_spec.body_html anchors.now marks.now nodes) }
{
    let mut page = BodyText::new(alloc);
    let overlay = Overlay::of(anchors.as_slice(), marks.as_slice());
    let siblings = Siblings::of(&body.doc);
    append_siblings(
        alloc,
        &mut page,
        &overlay,
        siblings,
        0,
        HtmlContext::outside(),
    )?;
    Ok(page.into_html()?)
}

// Appends some siblings, with what they hold. The first of them stands at this place.
#[cycle(append)]
fn append_siblings(
    alloc: Global,
    page: &mut BodyText,
    overlay: &Overlay<'_>,
    siblings: Siblings<'_>,
    place: u32,
    context: HtmlContext<'_>,
) -> Result<(), NoMemory>
    requires { place + tree_spec.size_of (siblings_spec.content siblings)
        < tree_spec.doc_node_limit }
    ensures { (around : blocks_spec.HtmlContext)
        → walk_spec.IsWithin page.old.groups context.entry around
        → OnOk result (opened_spec.HasMore page.old page.new (blocks_spec.shown_from around
        (walk_spec.overlay_of overlay.now) place (walk_spec.content_of siblings.entry))) }
{
    let mut left = siblings;
    let mut here = place;
    loop {
        match left.split_first() {
            First::End => return Ok(()),
            First::Chars { node, rest, .. } => {
                append_characters(&mut page.text, node)?;
                here += 1;
                left = rest;
            }
            First::Element {
                place,
                node,
                inside,
                rest,
            } => {
                let element = Element {
                    place: here,
                    node,
                    inside,
                };
                append_element(alloc, page, overlay, element, context)?;
                let count = node.end - place;
                here += count;
                left = rest;
            }
        }
    }
}

// Appends an element, with what it holds.
#[cycle(append)]
fn append_element(
    alloc: Global,
    page: &mut BodyText,
    overlay: &Overlay<'_>,
    element: Element<'_>,
    context: HtmlContext<'_>,
) -> Result<(), NoMemory>
    requires { element.place + 1 + tree_spec.size_of (siblings_spec.content element.inside)
        < tree_spec.doc_node_limit }
    ensures { (around : blocks_spec.HtmlContext)
        → walk_spec.IsWithin page.old.groups context.entry around
        → OnOk result (opened_spec.HasMore page.old page.new
        (walk_spec.whole_shown around (walk_spec.overlay_of overlay.now) element.entry)) }
{
    let opened = page.open(alloc, overlay, element, context)?;
    match opened {
        Some(opened) => {
            append_siblings(
                alloc,
                page,
                overlay,
                element.inside,
                element.place + 1,
                opened.within,
            )?;
            page.close(opened)?;
            Ok(())
        }
        None => Ok(()),
    }
}

// Appends the characters of a text.
fn append_characters(out: &mut Text, text: &Node) -> Result<(), AllocError>
    ensures { OnOk result (out.new ≡ out.old ++ html_escapes_spec.escaped text.now.text) }
{
    append_html(out, text.text.as_str())
}

//! The HTML of a body as it grows: what stands before and behind the content of an element.

ghost use Rattle.std.specs.Prelude.{◌≡◌, ◌++◌, ◌==◌, OnOk, IfOk, is_some, length};
ghost use Rattle.std.specs.Option.{option_copied};
ghost use Rattle.dita_doc.specs.ClassValue.{words_of};
ghost use Rattle.html_blocks.specs.Opened as opened_spec;
ghost use Rattle.html_blocks.specs.Walk as walk_spec;
ghost use Rattle.html_forms.specs.Shown.{form_shown_of};

use crate::context::HtmlContext;
use crate::element::Element;
use crate::link::ShownLink;
use crate::mark::Marks;
use crate::names::name_of;
use crate::overlay::Overlay;
use crate::start::{append_image, append_start};
use crate::tags::{append_end, append_link};
use dita_doc::{Fault, FaultCode, Html, List, NoMemory, Text, append_html, split_word};
use doc_elements::{class_fault, fault_at, tokens_of};
use html_forms::{Form, row_among};
use html_tables::Groups;
use std::alloc::{AllocError, Global};

/// What was written of a body.
#[derive(Drop)]
pub(crate) struct BodyText {
    pub text: Text,
    pub faults: List<Fault>,
    pub groups: Groups,
}

/// An element that is open: where its content stands, the name of the element of HTML around it,
/// and whether a link stands around the content.
#[derive(Clone, Copy)]
pub(crate) struct OpenTag<'a> {
    pub within: HtmlContext<'a>,
    pub name: Option<&'static str>,
    pub is_linked: bool,
}

impl BodyText {
    ghost use Rattle.std.specs.Prelude.{◌≡◌, ◌++◌, [], ◌∷◌, ℕ, List, Some, None, IfOk, OnOk, false, is_some, true};
    ghost use Rattle.std.specs.Option.{option_copied};
    ghost use Rattle.dita_doc.specs.ClassValue.{words_of};
    ghost use Rattle.dita_doc.specs.declared.content.Anchor.{Anchor};
    ghost use Rattle.dita_doc.specs.declared.fault.FaultCode.TheVariants as faults_spec;
    ghost use Rattle.html_blocks.specs.Anchors as anchors_spec;
    ghost use Rattle.html_blocks.specs.Opened as opened_spec;
    ghost use Rattle.html_blocks.specs.Walk as walk_spec;
    ghost use Rattle.html_forms.specs.Shown.{form_shown_of};
    ghost use Rattle.html_tables.specs.Walk.{HasColumns, KeepsGroups, Names, columns_within};
    ghost use Rattle.map_spec.specs.Elements as elements_spec;
    ghost use Rattle.html_spec.specs.Blocks as blocks_spec;

    /// Nothing was written.
    pub fn new(alloc: Global) -> BodyText
        ensures text { result.text ≡ [] }
        ensures faults { result.faults ≡ [] }
    {
        BodyText {
            text: Text::new(alloc),
            faults: List::new(alloc),
            groups: Groups::new(alloc),
        }
    }

    /// All that was written.
    pub fn into_html(self) -> Result<Html, NoMemory>
        ensures bytes { IfOk result (λ html. html.bytes ≡ self.text) }
        ensures faults { IfOk result (λ html. html.faults ≡ self.faults) }
    {
        let BodyText { text, faults, .. } = self;
        Ok(Html {
            bytes: text.into_bytes()?,
            faults,
        })
    }

    /// Writes what stands before the content of an element. An element whose content is not shown
    /// is written whole, and not opened.
    pub fn open<'a>(
        &mut self,
        alloc: Global,
        overlay: &Overlay<'_>,
        element: Element<'a>,
        context: HtmlContext<'a>,
    ) -> Result<Option<OpenTag<'a>>, NoMemory>
        ensures { (around : blocks_spec.HtmlContext)
            → walk_spec.IsWithin self.old.groups context.entry around
            → IfOk result (λ opened. opened_spec.HasOpened self.old self.new opened
            (walk_spec.overlay_of overlay.now) element.entry
            (walk_spec.whole_shown around (walk_spec.overlay_of overlay.now) element.entry)) }
    {
        let tokens = tokens_of(element.node);
        if has_no_token(tokens) {
            let untyped = self.open_untyped(alloc, element, context)?;
            return Ok(Some(untyped));
        }
        let link = overlay.links.at(element.place);
        let marks = &overlay.marks;
        match row_among(tokens) {
            Some((token, form)) => {
                let opened = self.open_row(
                    alloc, tokens, token, form, element, link, marks, context,
                )?;
                Ok(opened)
            }
            None => {
                let formless = self.open_formless(alloc, tokens, element, link, context)?;
                Ok(Some(formless))
            }
        }
    }

    // Opens an element without types.
    fn open_untyped<'a>(
        &mut self,
        alloc: Global,
        element: Element<'a>,
        context: HtmlContext<'a>,
    ) -> Result<OpenTag<'a>, NoMemory>
        ensures { (around : blocks_spec.HtmlContext) (overlay : blocks_spec.Overlay)
            → walk_spec.IsWithin self.old.groups context.entry around
            → elements_spec.has_types (walk_spec.element_of element.entry) ≡ false
            → IfOk result (λ opened. opened_spec.IsOpen self.old self.new opened overlay
            element.entry (walk_spec.whole_shown around overlay element.entry)) }
    {
        self.append_class_fault(alloc, element)?;
        Ok(OpenTag {
            within: context,
            name: None,
            is_linked: false,
        })
    }

    // Opens an element of a form, unless its content is not shown.
    fn open_row<'a>(
        &mut self,
        alloc: Global,
        tokens: &[u8],
        token: &str,
        form: Form,
        element: Element<'a>,
        link: ShownLink<'_>,
        marks: &Marks<'_>,
        context: HtmlContext<'a>,
    ) -> Result<Option<OpenTag<'a>>, NoMemory>
        ensures { (around : blocks_spec.HtmlContext) (anchors : List Anchor)
            → walk_spec.IsWithin self.old.groups context.entry around
            → words_of tokens.now ≡ elements_spec.tokens_of (walk_spec.element_of element.entry)
            → elements_spec.has_types (walk_spec.element_of element.entry) ≡ true
            → blocks_spec.row_for (walk_spec.element_of element.entry)
            ≡ Some (token.now, form_shown_of form)
            → anchors_spec.IsLinkAt anchors element.entry.place (option_copied link.entry.href)
            link.entry.label.now
            → IfOk result (λ opened. opened_spec.HasOpened self.old self.new opened
            (walk_spec.overlaid anchors marks.now) element.entry
            (walk_spec.whole_shown around (walk_spec.overlaid anchors marks.now)
            element.entry)) }
    {
        match name_of(form, link, context) {
            Some(name) => {
                let opened = self.open_named(
                    alloc, tokens, token, name, form, element, link, marks, context,
                )?;
                Ok(Some(opened))
            }
            None => {
                self.append_whole(alloc, form, element, link, marks, context)?;
                Ok(None)
            }
        }
    }

    // Opens an element of a form, with this name around its content.
    fn open_named<'a>(
        &mut self,
        alloc: Global,
        tokens: &[u8],
        token: &str,
        name: &'static str,
        form: Form,
        element: Element<'a>,
        link: ShownLink<'_>,
        marks: &Marks<'_>,
        context: HtmlContext<'a>,
    ) -> Result<OpenTag<'a>, NoMemory>
        ensures begun { (around : blocks_spec.HtmlContext)
            → walk_spec.IsWithin self.old.groups context.entry around
            → words_of tokens.now ≡ elements_spec.tokens_of (walk_spec.element_of element.entry)
            → IfOk result (λ opened. opened_spec.IsBegun self.old self.new opened
            (blocks_spec.context_in (walk_spec.element_of element.entry)
            (walk_spec.inside_of element.entry) (Some (token.now, form_shown_of form)) around)
            (opened_spec.start_by around (option_copied link.entry.href)
            (blocks_spec.marks_at marks.now.marks.now element.entry.place)
            (walk_spec.element_of element.entry) name.now (form_shown_of form)
            ++ opened_spec.content_begun (opened_spec.href_within (form_shown_of form)
            (option_copied link.entry.href)) (walk_spec.inside_of element.entry)
            link.entry.label.now)) }
        ensures ended { IfOk result (λ opened. opened_spec.closing opened
            ≡ opened_spec.link_ended (is_some (opened_spec.href_within (form_shown_of form)
            (option_copied link.entry.href))) ++ blocks_spec.end_tag name.now) }
    {
        append_start(
            alloc,
            &mut self.text,
            &self.groups,
            name,
            form,
            element,
            link,
            marks,
            context,
        )?;
        let group = self.enter(alloc, tokens, element, context)?;
        let href = href_within(form, link);
        let is_linked = open_content(&mut self.text, element, link.label, href)?;
        Ok(OpenTag {
            within: context.within(token, element.node, group),
            name: Some(name),
            is_linked,
        })
    }

    // Opens an element of no form.
    fn open_formless<'a>(
        &mut self,
        alloc: Global,
        tokens: &[u8],
        element: Element<'a>,
        link: ShownLink<'_>,
        context: HtmlContext<'a>,
    ) -> Result<OpenTag<'a>, NoMemory>
        ensures begun { (around : blocks_spec.HtmlContext)
            → walk_spec.IsWithin self.old.groups context.entry around
            → words_of tokens.now ≡ elements_spec.tokens_of (walk_spec.element_of element.entry)
            → IfOk result (λ opened. opened_spec.IsBegun self.old self.new opened
            (blocks_spec.columns_in (walk_spec.element_of element.entry)
            (walk_spec.inside_of element.entry) around)
            (opened_spec.content_begun (option_copied link.entry.href)
            (walk_spec.inside_of element.entry) link.entry.label.now)) }
        ensures ended { IfOk result (λ opened. opened_spec.closing opened
            ≡ opened_spec.link_ended (is_some (option_copied link.entry.href))) }
    {
        let group = self.enter(alloc, tokens, element, context)?;
        let is_linked = open_content(&mut self.text, element, link.label, link.href)?;
        Ok(OpenTag {
            within: context.in_group(group),
            name: None,
            is_linked,
        })
    }

    /// Writes what stands behind the content of an element.
    pub fn close(&mut self, opened: OpenTag<'_>) -> Result<(), AllocError>
        ensures text { OnOk result (self.new.text ≡ self.old.text
            ++ opened_spec.closing opened.entry) }
        ensures faults { self.new.faults ≡ self.old.faults }
        ensures groups { self.new.groups ≡ self.old.groups }
    {
        append_closing(&mut self.text, opened)
    }

    // Appends the fault of an element without a class that can be read.
    fn append_class_fault(&mut self, alloc: Global, element: Element<'_>) -> Result<(), NoMemory>
        ensures faults { OnOk result (self.new.faults ≡ self.old.faults
            ++ elements_spec.class_faults (walk_spec.element_of element.entry)) }
        ensures text { self.new.text ≡ self.old.text }
        ensures groups { self.new.groups ≡ self.old.groups }
    {
        match class_fault(alloc, element.origin(), element.node)? {
            Some(fault) => {
                self.faults.push(fault)?;
                Ok(())
            }
            None => Ok(()),
        }
    }

    // Writes an element of a form whose content is not shown: an image, a fault, or nothing.
    fn append_whole(
        &mut self,
        alloc: Global,
        form: Form,
        element: Element<'_>,
        link: ShownLink<'_>,
        marks: &Marks<'_>,
        context: HtmlContext<'_>,
    ) -> Result<(), NoMemory>
        ensures { (around : blocks_spec.HtmlContext) → context.entry.topic.now ≡ around.topic
            → OnOk result (opened_spec.HasMore self.old self.new (opened_spec.whole_by around
            (option_copied link.entry.href)
            (blocks_spec.marks_at marks.now.marks.now element.entry.place)
            (walk_spec.element_of element.entry) (walk_spec.inside_of element.entry)
            (form_shown_of form))) }
    {
        match form {
            Form::Image => {
                append_image(alloc, &mut self.text, element, link, marks, context)?;
                Ok(())
            }
            Form::Foreign => self.append_foreign(alloc, element),
            _ => Ok(()),
        }
    }

    // Appends the fault of an element of a foreign vocabulary.
    fn append_foreign(&mut self, alloc: Global, element: Element<'_>) -> Result<(), NoMemory>
        ensures faults { OnOk result (self.new.faults ≡ self.old.faults
            ++ elements_spec.fault_at (walk_spec.element_of element.entry) faults_spec.Foreign
            (walk_spec.element_of element.entry).name ∷ []) }
        ensures text { self.new.text ≡ self.old.text }
        ensures groups { self.new.groups ≡ self.old.groups }
    {
        let node = element.node;
        let fault = fault_at(
            alloc,
            element.origin(),
            node,
            FaultCode::Foreign,
            node.text.as_str(),
        )?;
        self.faults.push(fault)?;
        Ok(())
    }

    // The nearest group of rows around what an element holds.
    fn enter(
        &mut self,
        alloc: Global,
        tokens: &[u8],
        element: Element<'_>,
        context: HtmlContext<'_>,
    ) -> Result<Option<usize>, NoMemory>
        ensures kept { OnOk result (KeepsGroups self.old.groups self.new.groups) }
        ensures nearest { (columns : Names)
            → HasColumns self.old.groups context.entry.tables.group columns
            → IfOk result (λ group. HasColumns self.new.groups group
            (columns_within (words_of tokens.now) (walk_spec.inside_of element.entry) columns)) }
        ensures text { self.new.text ≡ self.old.text }
        ensures faults { self.new.faults ≡ self.old.faults }
    {
        self.groups
            .enter(alloc, tokens, element.inside, context.tables.group)
    }
}

// Whether a text has no word.
fn has_no_token(tokens: &[u8]) -> bool
    ensures { result ≡ (length (words_of tokens.now) == 0) }
{
    split_word(tokens).is_none()
}

// Appends the start of a link around the content, if it leads anywhere, and the label in the place
// of content that is not there. Tells whether there is a link.
fn open_content(
    out: &mut Text,
    element: Element<'_>,
    label: &str,
    href: Option<&str>,
) -> Result<bool, AllocError>
    ensures linked { IfOk result (λ linked. linked ≡ is_some (option_copied href.entry)) }
    ensures begun { OnOk result (out.new ≡ out.old ++ opened_spec.content_begun
        (option_copied href.entry) (walk_spec.inside_of element.entry) label.now) }
{
    begin_link(out, href)?;
    append_label(out, element, label)?;
    Ok(href.is_some())
}

fn begin_link(out: &mut Text, href: Option<&str>) -> Result<(), AllocError>
    ensures { OnOk result (out.new
        ≡ out.old ++ opened_spec.link_begun (option_copied href.entry)) }
{
    match href {
        Some(href) => append_link(out, href),
        None => Ok(()),
    }
}

fn append_label(out: &mut Text, element: Element<'_>, label: &str) -> Result<(), AllocError>
    ensures { OnOk result (out.new ≡ out.old
        ++ opened_spec.label_in (walk_spec.inside_of element.entry) label.now) }
{
    if element.is_empty() {
        append_html(out, label)
    } else {
        Ok(())
    }
}

// Appends what stands behind the content of an element.
fn append_closing(out: &mut Text, opened: OpenTag<'_>) -> Result<(), AllocError>
    ensures { OnOk result (out.new ≡ out.old ++ opened_spec.closing opened.entry) }
{
    end_link(out, opened.is_linked)?;
    match opened.name {
        Some(name) => append_end(out, name),
        None => Ok(()),
    }
}

fn end_link(out: &mut Text, is_linked: bool) -> Result<(), AllocError>
    ensures { OnOk result (out.new ≡ out.old ++ opened_spec.link_ended is_linked) }
{
    if is_linked {
        append_end(out, "a")
    } else {
        Ok(())
    }
}

// What the link around the content leads to: a reference is a link itself.
fn href_within(form: Form, link: ShownLink<'_>) -> Option<&str>
    ensures { option_copied result
        ≡ opened_spec.href_within (form_shown_of form) (option_copied link.entry.href) }
{
    match form {
        Form::Reference => None,
        _ => link.href,
    }
}

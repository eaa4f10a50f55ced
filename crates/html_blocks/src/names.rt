//! The names of the elements of HTML.

ghost use Rattle.std.specs.Prelude.{◌≡◌, ◌+◌, ◌-◌, ◌^◌, ℕ, min};
ghost use Rattle.std.specs.Option.{option_copied};
ghost use Rattle.html_blocks.specs.Shown as shown_spec;
ghost use Rattle.html_forms.specs.Shown.{form_shown_of};
ghost use Rattle.html_spec.specs.Blocks as blocks_spec;

use crate::context::{HtmlContext, TitlePlace};
use crate::link::ShownLink;
use html_forms::Form;

/// The name of the element of HTML around the content of an element of this form. There is none if
/// the content is not shown.
pub(crate) fn name_of(
    form: Form,
    link: ShownLink<'_>,
    context: HtmlContext<'_>,
) -> Option<&'static str>
    ensures { (depth : ℕ) → context.entry.depth ≡ shown_spec.counted depth
        → option_copied result ≡ shown_spec.tag_name (form_shown_of form)
        (option_copied link.entry.href) (shown_spec.around_shown context.entry.around) depth
        context.entry.tables.head context.entry.tables.simple_head }
{
    match form {
        Form::Tag(name, _) => Some(name),
        Form::Topic => Some("article"),
        Form::Title => Some(title_name(context)),
        Form::Note => Some("div"),
        Form::Reference => Some(reference_name(link)),
        Form::Cell => Some(cell_name(context.tables.head)),
        Form::SimpleCell => Some(cell_name(context.tables.simple_head)),
        Form::Image | Form::Left | Form::Foreign => None,
    }
}

// A heading by the depth of the topic, one deeper in a section, and a caption in a figure and in a
// table.
fn title_name(context: HtmlContext<'_>) -> &'static str
    ensures { (depth : ℕ) → context.entry.depth ≡ shown_spec.counted depth → result.now
        ≡ blocks_spec.title_tag (shown_spec.around_shown context.entry.around) depth }
{
    match context.around {
        TitlePlace::Topic => heading(context.depth),
        TitlePlace::Section => heading_below(context.depth),
        TitlePlace::Figure => "figcaption",
        TitlePlace::Table => "caption",
    }
}

fn heading_below(depth: u32) -> &'static str
    ensures { result.now ≡ blocks_spec.heading (min (depth + 1) (2 ^ 32 - 1)) }
{
    heading(depth.saturating_add(1))
}

fn heading(depth: u32) -> &'static str
    ensures { result.now ≡ blocks_spec.heading depth }
{
    match depth {
        0 => "h1",
        1 => "h1",
        2 => "h2",
        3 => "h3",
        4 => "h4",
        5 => "h5",
        _ => "h6",
    }
}

fn reference_name(link: ShownLink<'_>) -> &'static str
    ensures { result.now ≡ blocks_spec.reference_tag (option_copied link.entry.href) }
{
    if link.href.is_some() { "a" } else { "span" }
}

fn cell_name(heads: bool) -> &'static str
    ensures { result.now ≡ blocks_spec.cell_tag heads }
{
    if heads { "th" } else { "td" }
}

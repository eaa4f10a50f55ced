//! Where an element stands.

ghost use Rattle.std.specs.Prelude.{◌≡◌};
ghost use Rattle.html_blocks.specs.Shown as shown_spec;
ghost use Rattle.html_spec.specs.Blocks as blocks_spec;

use dita_doc::{Node, is_same};
use html_tables::TableContext;

/// The nearest of topic, section or example, figure and table around an element.
#[derive(Clone, Copy)]
pub(crate) enum TitlePlace {
    Topic,
    Section,
    Figure,
    Table,
}

/// The id of the nearest topic, how many topics are around, the nearest of those above, and the
/// tables around.
#[derive(Clone, Copy)]
pub(crate) struct HtmlContext<'a> {
    pub topic: &'a str,
    pub depth: u32,
    pub around: TitlePlace,
    pub tables: TableContext,
}

impl<'a> HtmlContext<'a> {
    ghost use Rattle.std.specs.Prelude.{◌≡◌, ℕ, List};
    ghost use Rattle.doc_elements.specs.Walk as elements_walk;
    ghost use Rattle.html_blocks.specs.Opened as opened_spec;
    ghost use Rattle.html_blocks.specs.Shown as shown_spec;
    ghost use Rattle.html_blocks.specs.Walk as walk_spec;
    ghost use Rattle.html_tables.specs.declared.groups.Groups.{Groups};
    ghost use Rattle.html_spec.specs.Blocks as blocks_spec;

    /// Where nothing stands around.
    pub fn outside() -> HtmlContext<'a>
        ensures { (groups : Groups) → walk_spec.IsWithin groups result blocks_spec.outside }
    {
        HtmlContext {
            topic: "",
            depth: 0,
            around: TitlePlace::Topic,
            tables: TableContext::outside(),
        }
    }

    /// Where what an element holds stands, by the token that counts for the element and the nearest
    /// group of rows.
    pub fn within(self, token: &str, element: &'a Node, group: Option<usize>) -> HtmlContext<'a>
        ensures topic { (name : List ℕ) → result.topic.now ≡ opened_spec.topic_within token.now
            (elements_walk.element_of name element.now) self.entry.topic.now }
        ensures depth { result.depth ≡ opened_spec.depth_within token.now self.entry.depth }
        ensures nearest { shown_spec.around_shown result.around
            ≡ blocks_spec.around_in token.now (shown_spec.around_shown self.entry.around) }
        ensures head { result.tables.head
            ≡ blocks_spec.head_in token.now self.entry.tables.head }
        ensures simple_head { result.tables.simple_head
            ≡ blocks_spec.simple_head_in token.now self.entry.tables.simple_head }
        ensures group { result.tables.group ≡ group }
    {
        let context = self.in_topic(token, element);
        HtmlContext {
            topic: context.topic,
            depth: context.depth,
            around: around_in(token, context.around),
            tables: context.tables.within(token, group),
        }
    }

    /// Where what an element of no form holds stands, by the nearest group of rows.
    pub fn in_group(self, group: Option<usize>) -> HtmlContext<'a>
        ensures topic { result.topic.now ≡ self.entry.topic.now }
        ensures depth { result.depth ≡ self.entry.depth }
        ensures nearest { result.around ≡ self.entry.around }
        ensures head { result.tables.head ≡ self.entry.tables.head }
        ensures simple_head { result.tables.simple_head ≡ self.entry.tables.simple_head }
        ensures group { result.tables.group ≡ group }
    {
        let tables = TableContext {
            group,
            ..self.tables
        };
        HtmlContext { tables, ..self }
    }

    // Where what an element holds stands, by the topic that the element may be.
    fn in_topic(self, token: &str, element: &'a Node) -> HtmlContext<'a>
        ensures topic { (name : List ℕ) → result.topic.now ≡ opened_spec.topic_within token.now
            (elements_walk.element_of name element.now) self.entry.topic.now }
        ensures depth { result.depth ≡ opened_spec.depth_within token.now self.entry.depth }
        ensures nearest { result.around ≡ self.entry.around }
        ensures tables { result.tables ≡ self.entry.tables }
    {
        if !is_same(token.as_bytes(), b"topic/topic") {
            return self;
        }
        HtmlContext {
            topic: element.value_of("id").unwrap_or(""),
            depth: self.depth.saturating_add(1),
            ..self
        }
    }
}

fn around_in(token: &str, around: TitlePlace) -> TitlePlace
    ensures { shown_spec.around_shown result
        ≡ blocks_spec.around_in token.now (shown_spec.around_shown around) }
{
    let token = token.as_bytes();
    if is_same(token, b"topic/topic") {
        return TitlePlace::Topic;
    }
    if is_same(token, b"topic/section") || is_same(token, b"topic/example") {
        return TitlePlace::Section;
    }
    if is_same(token, b"topic/fig") {
        return TitlePlace::Figure;
    }
    if is_same(token, b"topic/table") {
        return TitlePlace::Table;
    }
    around
}

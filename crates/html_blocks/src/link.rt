//! The links of elements, by their places.

ghost use Rattle.std.specs.Prelude.{◌≡◌, true};
ghost use Rattle.std.specs.Bool.{OnTrue};
ghost use Rattle.std.specs.Option.{option_copied};
ghost use Rattle.html_blocks.specs.Anchors as anchors_spec;
ghost use Rattle.html_spec.specs.Blocks as blocks_spec;

use dita_doc::{Anchor, Text};

/// The link of an element: what it leads to, if it leads anywhere, and the text that it shows if
/// the element has no content, which is empty if there is none.
#[derive(Clone, Copy)]
pub(crate) struct ShownLink<'a> {
    pub href: Option<&'a str>,
    pub label: &'a str,
}

/// The anchors of a body, and whether they stand by their places, at most one at each.
#[derive(Clone, Copy)]
pub(crate) struct Links<'a> {
    anchors: &'a [Anchor],
    are_by_place: bool,
    ghost by_place: { are_by_place ≡ true → anchors_spec.AreByPlace anchors.now },
}

impl<'a> Links<'a> {
    ghost use Rattle.std.specs.Prelude.{◌≡◌};
    ghost use Rattle.std.specs.Option.{option_copied};
    ghost use Rattle.html_blocks.specs.Anchors as anchors_spec;
    ghost use Rattle.html_spec.specs.Blocks as blocks_spec;

    /// The links by these anchors.
    pub fn of(anchors: &'a [Anchor]) -> Links<'a>
        ensures { result.anchors.now ≡ anchors.now }
    {
        Links {
            anchors,
            are_by_place: are_by_place(anchors),
        }
    }

    /// The link of the element at a place: that of the first anchor there.
    pub fn at(self, place: u32) -> ShownLink<'a>
        ensures { anchors_spec.IsLinkAt self.entry.anchors.now place (option_copied result.href)
            result.label.now }
    {
        match self.anchor_at(place) {
            Some(anchor) => ShownLink {
                href: href_of(anchor),
                label: label_of(anchor),
            },
            None => ShownLink {
                href: None,
                label: "",
            },
        }
    }

    fn anchor_at(self, place: u32) -> Option<&'a Anchor>
        ensures { option_copied result ≡ blocks_spec.anchor_at self.entry.anchors.now place }
    {
        if self.are_by_place {
            anchor_halving(self.anchors, place)
        } else {
            first_anchor(self.anchors, place)
        }
    }
}

// Whether each anchor stands before the next.
fn are_by_place(anchors: &[Anchor]) -> bool
    ensures { OnTrue result (anchors_spec.AreByPlace anchors.now) }
{
    for at in 1..anchors.len() {
        if anchors[at].place <= anchors[at - 1].place {
            return false;
        }
    }
    true
}

fn href_of(anchor: &Anchor) -> Option<&str>
    ensures { option_copied result ≡ anchor.now.href }
{
    match &anchor.href {
        Some(href) => Some(href.as_str()),
        None => None,
    }
}

fn label_of(anchor: &Anchor) -> &str
    ensures { result.now ≡ anchors_spec.label_or_none anchor.now.label }
{
    match &anchor.label {
        Some(label) => label.as_str(),
        None => "",
    }
}

// The anchor at a place among anchors that stand by their places.
fn anchor_halving(anchors: &[Anchor], place: u32) -> Option<&Anchor>
    ensures { anchors_spec.AreByPlace anchors.now
        → option_copied result ≡ blocks_spec.anchor_at anchors.now place }
{
    match anchors.binary_search_by(|anchor| anchor.place.cmp(&place)) {
        Ok(at) => anchors.get(at),
        Err(_) => None,
    }
}

// The first anchor at a place.
fn first_anchor(anchors: &[Anchor], place: u32) -> Option<&Anchor>
    ensures { option_copied result ≡ blocks_spec.anchor_at anchors.now place }
{
    anchors.iter().find(|anchor| anchor.place == place)
}

//! What is looked for, and where it may stand.

/// The topic that is meant: any of an id, or the one at a place.
#[derive(Clone, Copy)]
pub(crate) enum TopicMeant<'a> {
    WithId(&'a str),
    At(u32),
}

/// The element that is meant: its id, and the topic that it belongs to.
#[derive(Clone, Copy)]
pub(crate) struct ElementMeant<'a> {
    pub id: &'a str,
    pub topic: TopicMeant<'a>,
}

/// The nearest topic around an element: its place and its id, which is empty if none is written.
#[derive(Clone, Copy)]
pub(crate) struct TopicAround<'a> {
    pub place: u32,
    pub id: &'a str,
}

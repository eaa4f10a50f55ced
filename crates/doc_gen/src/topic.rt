//! The topics of a project.

ghost use Rattle.std.specs.Prelude.{◌≡◌, ◌++◌, ◌∷◌, ◌<◌, ◌≤◌, ◌+◌, ◌%◌, [], codes, OnOk};
ghost use Rattle.std.specs.Fmt.{decimal};
ghost use Rattle.doc_gen.specs.Project as project_spec;
ghost use Rattle.doc_gen.specs.Short as short_spec;

use crate::elements::{append_attribute, append_text, close, open_topic};
use dita_doc::List;
use std::alloc::{AllocError, Global};

// The body of the topic of this index, by its value, with this number in its text.
#[tactic(auto, unfolding(crate::specs::Project::topic))]
pub(crate) fn append_topic(
    alloc: Global,
    out: &mut List<u8>,
    topics: u32,
    index: u32,
    value: u64,
    number: u64,
) -> Result<(), AllocError>
    requires { 0 < topics }
    ensures { OnOk result (out.new ≡ out.old ++ project_spec.topic topics index value number) }
{
    open_topic(out, "topic")?;
    append_attribute(out, "id", format!(in alloc; "t{index}")?.as_str())?;
    append_title(alloc, out, index)?;
    append_body(alloc, out, topics, value, number)?;
    close(out, "topic")
}

#[tactic(auto, unfolding(crate::specs::Project::topic_body))]
fn append_body(
    alloc: Global,
    out: &mut List<u8>,
    topics: u32,
    value: u64,
    number: u64,
) -> Result<(), AllocError>
    requires { 0 < topics }
    ensures { OnOk result (out.new ≡ out.old ++ project_spec.topic_body topics value number) }
{
    open_topic(out, "body")?;
    append_shared(alloc, out, number)?;
    append_key_use(alloc, out, 1 + value % 3)?;
    append_filtered(out, "audience", "internal", "I")?;
    append_filtered(out, "platform", "win", "W")?;
    append_filtered(out, "platform", "lin", "L")?;
    append_reference(alloc, out, 1 + value % u64::from(topics))?;
    close(out, "body")
}

fn append_title(alloc: Global, out: &mut List<u8>, index: u32) -> Result<(), AllocError>
    ensures { OnOk result (out.new ≡ out.old
        ++ short_spec.of_topic (codes "title") [] (short_spec.text (codes "Topic " ++ decimal index))) }
{
    open_topic(out, "title")?;
    append_text(out, format!(in alloc; "Topic {index}")?.as_str())?;
    close(out, "title")
}

// The paragraph that other topics take.
#[tactic(auto, unfolding(crate::specs::Project::paragraph))]
fn append_shared(alloc: Global, out: &mut List<u8>, number: u64) -> Result<(), AllocError>
    ensures { OnOk result (out.new ≡ out.old
        ++ project_spec.paragraph ((codes "id", codes "s") ∷ [])
        (short_spec.text (codes "Text " ++ decimal number))) }
{
    open_topic(out, "p")?;
    append_attribute(out, "id", "s")?;
    append_text(out, format!(in alloc; "Text {number}")?.as_str())?;
    close(out, "p")
}

#[tactic(auto, unfolding(crate::specs::Project::paragraph))]
fn append_key_use(alloc: Global, out: &mut List<u8>, key: u64) -> Result<(), AllocError>
    ensures { OnOk result (out.new ≡ out.old ++ project_spec.paragraph []
        (short_spec.of_topic (codes "ph") ((codes "keyref", codes "k" ++ decimal key) ∷ []) [])) }
{
    open_topic(out, "p")?;
    open_topic(out, "ph")?;
    append_attribute(out, "keyref", format!(in alloc; "k{key}")?.as_str())?;
    close(out, "ph")?;
    close(out, "p")
}

// A paragraph that is filtered by one value of one attribute.
#[tactic(auto, unfolding(crate::specs::Project::paragraph))]
fn append_filtered(
    out: &mut List<u8>,
    attribute: &str,
    value: &str,
    words: &str,
) -> Result<(), AllocError>
    ensures { OnOk result (out.new ≡ out.old
        ++ project_spec.paragraph ((attribute.now, value.now) ∷ []) (short_spec.text words.now)) }
{
    open_topic(out, "p")?;
    append_attribute(out, attribute, value)?;
    append_text(out, words)?;
    close(out, "p")
}

// A paragraph that takes that of another topic.
#[tactic(auto, unfolding(crate::specs::Project::paragraph))]
fn append_reference(alloc: Global, out: &mut List<u8>, other: u64) -> Result<(), AllocError>
    ensures { let id = project_spec.topic_id other in
        OnOk result (out.new ≡ out.old ++ project_spec.paragraph
        ((codes "conref", id ++ codes ".dita#" ++ id ++ codes "/s") ∷ []) []) }
{
    open_topic(out, "p")?;
    append_attribute(
        out,
        "conref",
        format!(in alloc; "t{other}.dita#t{other}/s")?.as_str(),
    )?;
    close(out, "p")
}

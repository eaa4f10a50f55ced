//! The map of a project, and its DITAVALs.

ghost use Rattle.std.specs.Prelude.{◌≡◌, ◌++◌, ◌≤◌, [], codes, OnOk};
ghost use Rattle.std.specs.Fmt.{decimal};
ghost use Rattle.std.specs.List.{flat_map};
ghost use Rattle.doc_gen.specs.Project as project_spec;
ghost use Rattle.doc_gen.specs.Short as short_spec;

use crate::elements::{
    append_attribute, append_text, close, open_domain, open_map, open_plain, open_topic,
};
use dita_doc::List;
use std::alloc::{AllocError, Global};

// The body of a DITAVAL that excludes one value of one attribute.
#[tactic(auto, unfolding(crate::specs::Project::excluding))]
pub(crate) fn append_excluding(
    out: &mut List<u8>,
    attribute: &str,
    value: &str,
) -> Result<(), AllocError>
    ensures { OnOk result
        (out.new ≡ out.old ++ project_spec.excluding attribute.now value.now) }
{
    open_plain(out, "val")?;
    open_plain(out, "prop")?;
    append_attribute(out, "action", "exclude")?;
    append_attribute(out, "att", attribute)?;
    append_attribute(out, "val", value)?;
    close(out, "prop")?;
    close(out, "val")
}

// The body of the map: its title, its keys, a reference to each topic, one to the first again in
// two branches, and a relationship table.
#[tactic(auto, unfolding(crate::specs::Project::book))]
pub(crate) fn append_book(alloc: Global, out: &mut List<u8>, topics: u32) -> Result<(), AllocError>
    requires { topics ≤ 4000 }
    ensures { OnOk result (out.new ≡ out.old ++ project_spec.book topics) }
{
    open_map(out, "map")?;
    append_title(out)?;
    append_keydefs(alloc, out)?;
    append_topicrefs(alloc, out, topics)?;
    append_branches(alloc, out)?;
    append_reltable(alloc, out)?;
    close(out, "map")
}

fn append_title(out: &mut List<u8>) -> Result<(), AllocError>
    ensures { OnOk result (out.new ≡ out.old
        ++ short_spec.of_topic (codes "title") [] (short_spec.text (codes "Book"))) }
{
    open_topic(out, "title")?;
    append_text(out, "Book")?;
    close(out, "title")
}

fn append_keydefs(alloc: Global, out: &mut List<u8>) -> Result<(), AllocError>
    ensures { OnOk result (out.new ≡ out.old
        ++ flat_map project_spec.keydef (project_spec.numbers_from 1 3)) }
{
    append_keydef(alloc, out, 1)?;
    append_keydef(alloc, out, 2)?;
    append_keydef(alloc, out, 3)
}

fn append_keydef(alloc: Global, out: &mut List<u8>, key: u32) -> Result<(), AllocError>
    ensures { OnOk result (out.new ≡ out.old ++ project_spec.keydef key) }
{
    open_domain(out, "map/topicref", "mapgroup-d", "keydef")?;
    append_key_name(alloc, out, key)?;
    append_attribute(out, "processing-role", "resource-only")?;
    append_key_meta(alloc, out, key)?;
    close(out, "keydef")
}

fn append_key_name(alloc: Global, out: &mut List<u8>, key: u32) -> Result<(), AllocError>
    ensures { OnOk result (out.new ≡ out.old
        ++ short_spec.attribute_text (codes "keys", codes "k" ++ decimal key)) }
{
    append_attribute(out, "keys", format!(in alloc; "k{key}")?.as_str())
}

// What a key stands for.
#[tactic(auto, unfolding(crate::specs::Project::key_meta))]
fn append_key_meta(alloc: Global, out: &mut List<u8>, key: u32) -> Result<(), AllocError>
    ensures { OnOk result (out.new ≡ out.old ++ project_spec.key_meta key) }
{
    open_map(out, "topicmeta")?;
    open_topic(out, "keyword")?;
    append_text(out, format!(in alloc; "Key {key}")?.as_str())?;
    close(out, "keyword")?;
    close(out, "topicmeta")
}

// A reference to each topic.
fn append_topicrefs(alloc: Global, out: &mut List<u8>, topics: u32) -> Result<(), AllocError>
    requires { topics ≤ 4000 }
    ensures { OnOk result (out.new ≡ out.old
        ++ flat_map (λ index. project_spec.topicref index []) (project_spec.numbers_from 1 topics)) }
{
    for index in 0..topics {
        append_topicref(alloc, out, index + 1)?;
    }
    Ok(())
}

#[tactic(auto, unfolding(crate::specs::Project::topicref))]
fn append_topicref(alloc: Global, out: &mut List<u8>, index: u32) -> Result<(), AllocError>
    ensures { OnOk result (out.new ≡ out.old ++ project_spec.topicref index []) }
{
    open_topicref(alloc, out, index)?;
    close(out, "topicref")
}

// Begins a reference to the topic of this index.
fn open_topicref(alloc: Global, out: &mut List<u8>, index: u32) -> Result<(), AllocError>
    ensures { OnOk result (out.new ≡ out.old ++ short_spec.begun (codes "topicref")
        ++ short_spec.attribute_text (codes "class", codes "- map/topicref ")
        ++ short_spec.attribute_text (codes "href", project_spec.topic_name index)) }
{
    open_map(out, "topicref")?;
    append_attribute(out, "href", format!(in alloc; "t{index}.dita")?.as_str())
}

// The first topic again, for two platforms.
#[tactic(auto, unfolding(crate::specs::Project::topicref))]
fn append_branches(alloc: Global, out: &mut List<u8>) -> Result<(), AllocError>
    ensures { OnOk result (out.new ≡ out.old ++ project_spec.topicref 1
        (project_spec.ditavalref (codes "win") ++ project_spec.ditavalref (codes "lin"))) }
{
    open_topicref(alloc, out, 1)?;
    append_ditavalref(alloc, out, "win")?;
    append_ditavalref(alloc, out, "lin")?;
    close(out, "topicref")
}

#[tactic(auto, unfolding(crate::specs::Project::ditavalref))]
fn append_ditavalref(alloc: Global, out: &mut List<u8>, platform: &str) -> Result<(), AllocError>
    ensures { OnOk result (out.new ≡ out.old ++ project_spec.ditavalref platform.now) }
{
    open_domain(out, "map/topicref", "ditavalref-d", "ditavalref")?;
    append_attribute(
        out,
        "href",
        format!(in alloc; "{platform}.ditaval")?.as_str(),
    )?;
    append_suffix_meta(alloc, out, platform)?;
    close(out, "ditavalref")
}

// The suffix of the pages of a branch.
#[tactic(auto, unfolding(crate::specs::Project::suffix_meta))]
fn append_suffix_meta(alloc: Global, out: &mut List<u8>, platform: &str) -> Result<(), AllocError>
    ensures { OnOk result (out.new ≡ out.old ++ project_spec.suffix_meta platform.now) }
{
    open_domain(out, "map/topicmeta", "ditavalref-d", "ditavalmeta")?;
    open_domain(out, "topic/data", "ditavalref-d", "dvrResourceSuffix")?;
    append_text(out, format!(in alloc; "-{platform}")?.as_str())?;
    close(out, "dvrResourceSuffix")?;
    close(out, "ditavalmeta")
}

// A row that links the first two topics.
#[tactic(auto, unfolding(crate::specs::Project::reltable))]
fn append_reltable(alloc: Global, out: &mut List<u8>) -> Result<(), AllocError>
    ensures { OnOk result (out.new ≡ out.old ++ project_spec.reltable) }
{
    open_map(out, "reltable")?;
    open_map(out, "relrow")?;
    append_relcell(alloc, out, 1)?;
    append_relcell(alloc, out, 2)?;
    close(out, "relrow")?;
    close(out, "reltable")
}

#[tactic(auto, unfolding(crate::specs::Project::relcell))]
fn append_relcell(alloc: Global, out: &mut List<u8>, index: u32) -> Result<(), AllocError>
    ensures { OnOk result (out.new ≡ out.old ++ project_spec.relcell index) }
{
    open_map(out, "relcell")?;
    append_topicref(alloc, out, index)?;
    close(out, "relcell")
}

//! Shared blocks of stored documents: the block that a name belongs to, and edits that copy no
//! other one.

ghost use Rattle.std.specs.Prelude.{◌≡◌, ◌+◌, ◌<◌, length, IfOk, OnErr, OnOk, is_some, option_map, if◌then◌else◌};
ghost use Rattle.std.specs.Arc.{arc_value};
ghost use Rattle.dita_doc.specs.Sources as sources_spec;
ghost use Rattle.dita_doc.specs.Desk as desk_spec;

use crate::block::{BLOCK_LIMIT, Block};
use crate::name::Name;
use crate::sources::StoredDoc;
use std::alloc::AllocError;
use std::sync::Arc;

/// The block that a name belongs to: the last one that does not begin above it, or the first.
pub fn block_for(blocks: &[Arc<Block>], name: &Name) -> usize
    requires some { 0 < length blocks.now }
    requires sorted { desk_spec.IsSortedByName (sources_spec.all_stored blocks.now) }
    ensures { sources_spec.IsBlockFor blocks.now name.now result }
{
    let mut low = 0;
    let mut high = blocks.len();
    while high - low > 1 {
        let middle = low + (high - low) / 2;
        if blocks[middle].begins_above(name) {
            high = middle;
        } else {
            low = middle;
        }
    }
    low
}

/// Stores a document, and answers whether its name is new.
pub fn put_among(blocks: &mut Vec<Arc<Block>>, document: StoredDoc) -> Result<bool, AllocError>
    requires { desk_spec.IsSortedByName (sources_spec.all_stored blocks.old.items) }
    ensures ok { OnOk result (sources_spec.all_stored blocks.new.items
        ≡ desk_spec.with_stored (sources_spec.document_seen document)
        (sources_spec.all_stored blocks.old.items)) }
    ensures err { OnErr result (sources_spec.all_stored blocks.new.items
        ≡ sources_spec.all_stored blocks.old.items) }
    ensures count { IfOk result (λ is_new. length (sources_spec.all_stored blocks.new.items)
        ≡ length (sources_spec.all_stored blocks.old.items) + (if is_new then 1 else 0)) }
{
    if blocks.is_empty() {
        return put_first(blocks, document);
    }
    let at = block_for(blocks, &document.name);
    if blocks[at].len() < BLOCK_LIMIT {
        return put_at(blocks, at, document);
    }
    let at = cut(blocks, at, &document.name)?;
    put_at(blocks, at, document)
}

fn put_first(blocks: &mut Vec<Arc<Block>>, document: StoredDoc) -> Result<bool, AllocError>
    requires { length blocks.old.items ≡ 0 }
    ensures ok { OnOk result (sources_spec.all_stored blocks.new.items
        ≡ desk_spec.with_stored (sources_spec.document_seen document)
        (sources_spec.all_stored blocks.old.items)) }
    ensures err { OnErr result (sources_spec.all_stored blocks.new.items
        ≡ sources_spec.all_stored blocks.old.items) }
    ensures count { IfOk result (λ is_new. length (sources_spec.all_stored blocks.new.items)
        ≡ length (sources_spec.all_stored blocks.old.items) + (if is_new then 1 else 0)) }
{
    let alloc = *blocks.allocator();
    let block = Arc::new(alloc, Block::of(alloc, document)?)?;
    blocks.push(block)?;
    Ok(true)
}

fn put_at(blocks: &mut Vec<Arc<Block>>, at: usize, document: StoredDoc) -> Result<bool, AllocError>
    requires here { sources_spec.IsBlockFor blocks.old.items document.name at }
    requires room { sources_spec.IsShorterThan sources_spec.block_limit blocks.old.items at }
    ensures ok { OnOk result (sources_spec.all_stored blocks.new.items
        ≡ desk_spec.with_stored (sources_spec.document_seen document)
        (sources_spec.all_stored blocks.old.items)) }
    ensures err { OnErr result (sources_spec.all_stored blocks.new.items
        ≡ sources_spec.all_stored blocks.old.items) }
    ensures count { IfOk result (λ is_new. length (sources_spec.all_stored blocks.new.items)
        ≡ length (sources_spec.all_stored blocks.old.items) + (if is_new then 1 else 0)) }
{
    put_into(&mut blocks[at], document)
}

fn put_into(block: &mut Arc<Block>, document: StoredDoc) -> Result<bool, AllocError>
    requires { length (arc_value block.old) < sources_spec.block_limit }
    ensures ok { OnOk result (arc_value block.new
        ≡ desk_spec.with_stored (sources_spec.document_seen document) (arc_value block.old)) }
    ensures err { OnErr result (arc_value block.new ≡ arc_value block.old) }
    ensures count { IfOk result (λ is_new. length (arc_value block.new)
        ≡ length (arc_value block.old) + (if is_new then 1 else 0)) }
{
    Arc::make_mut(block)?.put(document)
}

// Cuts the block that a name belongs to into halves, and answers to which of them it belongs.
fn cut(blocks: &mut Vec<Arc<Block>>, at: usize, name: &Name) -> Result<usize, AllocError>
    requires here { sources_spec.IsBlockFor blocks.old.items name.now at }
    requires many { sources_spec.IsLongerThan 1 blocks.old.items at }
    requires sorted { desk_spec.IsSortedByName (sources_spec.all_stored blocks.old.items) }
    ensures all { sources_spec.all_stored blocks.new.items
        ≡ sources_spec.all_stored blocks.old.items }
    ensures here { IfOk result (sources_spec.IsBlockFor blocks.new.items name.now) }
    ensures room { IfOk result
        (sources_spec.IsShorterThan sources_spec.block_limit blocks.new.items) }
{
    let alloc = *blocks.allocator();
    let (front, back) = blocks[at].halves()?;
    let behind = !back.begins_above(name);
    let front = Arc::new(alloc, front)?;
    let back = Arc::new(alloc, back)?;
    blocks.insert(at + 1, back)?;
    blocks[at] = front;
    Ok(at + usize::from(behind))
}

/// Takes away what stands under a name, and answers its version.
pub fn remove_among(blocks: &mut Vec<Arc<Block>>, name: &Name) -> Result<Option<u64>, AllocError>
    requires { desk_spec.IsSortedByName (sources_spec.all_stored blocks.old.items) }
    ensures version { IfOk result (λ version. version ≡ option_map (λ stored. stored.version)
        (desk_spec.stored_under (sources_spec.all_stored blocks.old.items) name.now)) }
    ensures ok { OnOk result (sources_spec.all_stored blocks.new.items
        ≡ desk_spec.without_name name.now (sources_spec.all_stored blocks.old.items)) }
    ensures err { OnErr result (sources_spec.all_stored blocks.new.items
        ≡ sources_spec.all_stored blocks.old.items) }
    ensures count { IfOk result (λ version. length (sources_spec.all_stored blocks.new.items)
        + (if is_some version then 1 else 0) ≡ length (sources_spec.all_stored blocks.old.items)) }
{
    if blocks.is_empty() {
        return Ok(None);
    }
    let at = block_for(blocks, name);
    let Some(document) = blocks[at].find(name) else {
        return Ok(None);
    };
    let version = document.version;
    if blocks[at].len() > 1 {
        return remove_at(blocks, at, name);
    }
    blocks.remove(at);
    Ok(Some(version))
}

fn remove_at(
    blocks: &mut Vec<Arc<Block>>,
    at: usize,
    name: &Name,
) -> Result<Option<u64>, AllocError>
    requires here { sources_spec.IsBlockFor blocks.old.items name.now at }
    requires many { sources_spec.IsLongerThan 1 blocks.old.items at }
    ensures version { IfOk result (λ version. version ≡ option_map (λ stored. stored.version)
        (desk_spec.stored_under (sources_spec.all_stored blocks.old.items) name.now)) }
    ensures ok { OnOk result (sources_spec.all_stored blocks.new.items
        ≡ desk_spec.without_name name.now (sources_spec.all_stored blocks.old.items)) }
    ensures err { OnErr result (sources_spec.all_stored blocks.new.items
        ≡ sources_spec.all_stored blocks.old.items) }
    ensures count { IfOk result (λ version. length (sources_spec.all_stored blocks.new.items)
        + (if is_some version then 1 else 0) ≡ length (sources_spec.all_stored blocks.old.items)) }
{
    remove_from(&mut blocks[at], name)
}

fn remove_from(block: &mut Arc<Block>, name: &Name) -> Result<Option<u64>, AllocError>
    requires { 1 < length (arc_value block.old) }
    ensures version { IfOk result (λ version. version ≡ option_map (λ stored. stored.version)
        (desk_spec.stored_under (arc_value block.old) name.now)) }
    ensures ok { OnOk result (arc_value block.new
        ≡ desk_spec.without_name name.now (arc_value block.old)) }
    ensures err { OnErr result (arc_value block.new ≡ arc_value block.old) }
    ensures count { IfOk result (λ version. length (arc_value block.new)
        + (if is_some version then 1 else 0) ≡ length (arc_value block.old)) }
{
    Ok(Arc::make_mut(block)?.remove(name))
}

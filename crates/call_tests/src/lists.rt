//! Generic calls and impls, each at a concrete type.

use crate::given::{document, name, text};
use dita_doc::{Attribute, Doc, List};
use std::alloc::{AllocError, Global};
use std::cmp::Ordering;
use std::test::Fail;

#[test]
fn lists_compare_item_by_item(rt: HostRuntime) -> Result<(), Fail> {
    let alloc = rt.alloc();
    let short = text(alloc, "ab")?;
    let long = text(alloc, "abc")?;
    let other = text(alloc, "b")?;
    assert_eq!(rt; short.cmp(&long), Ordering::Less);
    assert_eq!(rt; other.cmp(&long), Ordering::Greater);
    assert_eq!(rt; long.partial_cmp(&long), Some(Ordering::Equal));
    assert!(rt; short == short.clone()?);
    assert!(rt; short != long);
    Ok(())
}

#[test]
fn names_compare_by_their_bytes(rt: HostRuntime) -> Result<(), Fail> {
    let alloc = rt.alloc();
    let upper = name(alloc, "Z.dita")?;
    let lower = name(alloc, "a.dita")?;
    assert_eq!(rt; upper.cmp(&lower), Ordering::Less);
    assert_eq!(rt; lower.partial_cmp(&upper), Some(Ordering::Greater));
    assert!(rt; lower == lower.clone()?);
    Ok(())
}

#[test]
fn an_attribute_is_copied_whole(rt: HostRuntime) -> Result<(), Fail> {
    let alloc = rt.alloc();
    let attribute = Attribute {
        name: text(alloc, "id")?,
        value: text(alloc, "t")?,
    };
    assert!(rt; attribute == attribute.clone()?);
    Ok(())
}

#[test]
fn a_list_gives_back_what_it_was_made_of(rt: HostRuntime) -> Result<(), Fail> {
    let alloc = rt.alloc();
    let mut list = List::from_vec(Vec::from_slice(alloc, &[3u32, 5])?);
    assert!(rt; !list.is_empty());
    list.push(7)?;
    assert_eq!(rt; list.len(), 3);
    assert!(rt; list.into_vec().as_slice() == [3, 5, 7].as_slice());
    Ok(())
}

// An element of this class.
fn element(alloc: Global, class: &str) -> Result<Doc, AllocError> {
    let lines = format!(in alloc; "(step\nAclass {class}\n)step\n")?;
    document(alloc, lines.as_str())
}

fn has_type(alloc: Global, class: &str, token: &str) -> Result<bool, AllocError> {
    let doc = element(alloc, class)?;
    Ok(doc.nodes.as_slice().iter().any(|node| node.has_type(token)))
}

#[test]
fn an_element_has_the_types_of_its_class_value(rt: HostRuntime) -> Result<(), Fail> {
    let alloc = rt.alloc();
    let rows = [
        ("- topic/li task/step ", "topic/li", true),
        ("- topic/li task/step ", "task/step", true),
        ("- topic/li task/step ", "topic/l", false),
        ("- topic/li task/step ", "topic", false),
        ("\\n\\t+topic/p", "topic/p", true),
        // A value that cannot be read has no type.
        ("topic/p", "topic/p", false),
        ("- ", "topic/p", false),
        ("- topic/p topic", "topic/p", false),
        ("- topic/p topic/p/q", "topic/p", false),
    ];
    for (class, token, has) in rows {
        assert_eq!(rt; has_type(alloc, class, token)?, has, "{class:?}");
    }
    Ok(())
}

#[test]
fn an_attribute_is_found_by_its_name(rt: HostRuntime) -> Result<(), Fail> {
    let doc = element(rt.alloc(), "- topic/li task/step ")?;
    for step in doc.nodes.as_slice() {
        assert_eq!(rt; step.value_of("class"), Some("- topic/li task/step "));
        assert_eq!(rt; step.value_of("id"), None);
    }
    assert_eq!(rt; doc.nodes.len(), 1);
    Ok(())
}

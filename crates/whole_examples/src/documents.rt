//! Documents and scripts, as a writer sees them, in lines of PYX.

use std::alloc::{AllocError, Global};

/// An element of this class, with these attributes beside it and this content, which are lines of
/// PYX.
pub fn element(
    alloc: Global,
    name: &str,
    class: &str,
    attributes: &str,
    content: &str,
) -> Result<String, AllocError> {
    format!(in alloc; "({name}\nAclass {class}\n{attributes}{content}){name}\n")
}

/// A topic with one text in its title and in each paragraph. The texts have the escapes of PYX.
pub fn topic(
    alloc: Global,
    id: &str,
    title: &str,
    paragraphs: &[&str],
) -> Result<String, AllocError> {
    let mut content = String::new(alloc);
    for text in paragraphs {
        content.push_str(element(
            alloc,
            "p",
            "- topic/p ",
            "",
            text_line(alloc, text)?.as_str(),
        )?
        .as_str())?;
    }
    let title = element(
        alloc,
        "title",
        "- topic/title ",
        "",
        text_line(alloc, title)?.as_str(),
    )?;
    let body = element(alloc, "body", "- topic/body ", "", content.as_str())?;
    let inside = format!(in alloc; "{title}{body}")?;
    let id = format!(in alloc; "Aid {id}\n")?;
    element(
        alloc,
        "topic",
        "- topic/topic ",
        id.as_str(),
        inside.as_str(),
    )
}

fn text_line(alloc: Global, text: &str) -> Result<String, AllocError> {
    format!(in alloc; "-{text}\n")
}

/// A map that refers to these topics, side by side.
pub fn flat_map(alloc: Global, hrefs: &[&str]) -> Result<String, AllocError> {
    let mut content = String::new(alloc);
    for href in hrefs {
        let href = format!(in alloc; "Ahref {href}\n")?;
        content.push_str(element(
            alloc,
            "topicref",
            "- map/topicref ",
            href.as_str(),
            "",
        )?.as_str())?;
    }
    element(alloc, "map", "- map/map ", "", content.as_str())
}

/// The request of session 1 that stores a body.
pub fn put(alloc: Global, name: &str, body: &str) -> Result<String, AllocError> {
    format!(in alloc; "1 put {name}\n{body}.\n")
}

/// The page of a title and a body.
pub fn page(alloc: Global, title: &str, body: &str) -> Result<String, AllocError> {
    format!(in alloc;
        "<!DOCTYPE html>\n<html><head><meta charset=\"utf-8\"><title>{title}</title></head>\n<body>\n{body}\n</body></html>\n"
    )
}

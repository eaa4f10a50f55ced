//! A map with one topic, and what its build writes. The texts are put together by hand from the
//! rules.

use dita_doc::{List, Name};

/// Both are put, and the map is built.
pub const SCRIPT: &str =
    "1 put m.ditamap\n(map\nAclass - map/map \n(topicref\nAclass - map/topicref \nAhref t.dita\n)topicref\n)map\n.\n1 put t.dita\n(topic\nAclass - topic/topic \nAid t\n(title\nAclass - topic/title \n-Hello\n)title\n(body\nAclass - topic/body \n(p\nAclass - topic/p \n-A & B\n)p\n)body\n)topic\n.\n1 build m.ditamap\n";

// What the mode `clean` writes of it: 142 bytes.
const OUTPUT: &str =
    "dita transcript 1\nentry 0 1 1 stored 1\nentry 1 1 2 stored 2\nentry 2 1 3 built 2 0\n|page t.html bytes 181\n|page index.html bytes 188\nend 3 0 0\n";

const TOPIC: &str =
    "<!DOCTYPE html>\n<html><head><meta charset=\"utf-8\"><title>Hello</title></head>\n<body>\n<article id=\"t\"><h1>Hello</h1><div class=\"body\"><p>A &amp; B</p></div></article>\n</body></html>\n";

const CONTENTS: &str =
    "<!DOCTYPE html>\n<html><head><meta charset=\"utf-8\"><title>Contents</title></head>\n<body>\n<nav class=\"toc\"><h1>Contents</h1><ul><li><a href=\"t.html\">Hello</a></li></ul></nav>\n</body></html>\n";

/// How many bytes these are, if they are the first of the output.
pub fn first_bytes(bytes: &List<u8>) -> Option<usize> {
    if OUTPUT.as_bytes().starts_with(bytes.as_slice()) {
        return Some(bytes.len());
    }
    None
}

/// How many pages these are, if they are the first that the build puts.
pub fn first_pages(pages: &List<(Name, List<u8>)>) -> Option<usize> {
    match pages.as_slice() {
        [] => Some(0),
        [topic] if is_topic(topic) => Some(1),
        [topic, contents] if is_topic(topic) && is_contents(contents) => Some(2),
        _ => None,
    }
}

fn is_topic(page: &(Name, List<u8>)) -> bool {
    page.0.as_str() == "b3/t.html" && page.1.as_slice() == TOPIC.as_bytes()
}

fn is_contents(page: &(Name, List<u8>)) -> bool {
    page.0.as_str() == "b3/index.html" && page.1.as_slice() == CONTENTS.as_bytes()
}

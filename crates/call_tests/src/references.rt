//! Known values, and each public call once on its way to success.

use crate::given::{name, text};
use dita_doc::{Name, Reference, Stop};
use href_text::{RefFault, join_name, read_reference, relative};
use std::alloc::{AllocError, Global};
use std::test::Fail;

fn read(alloc: Global, value: &str) -> Result<Result<Reference, Stop<RefFault>>, AllocError> {
    Ok(read_reference(alloc, &text(alloc, value)?))
}

fn join(alloc: Global, from: &str, file: &str) -> Result<Result<Name, Stop<RefFault>>, AllocError> {
    Ok(join_name(alloc, &name(alloc, from)?, &text(alloc, file)?))
}

fn refuses<T: Drop>(answer: Result<T, Stop<RefFault>>, fault: RefFault) -> bool {
    match answer {
        Err(Stop::Fault(told)) => told == fault,
        _ => false,
    }
}

// Whether a value has these parts.
fn has_parts(
    alloc: Global,
    value: &str,
    file: &str,
    topic: &str,
    element: &str,
) -> Result<bool, AllocError> {
    let parts = read(alloc, value)?.map_err(|_| AllocError)?;
    Ok(
        parts.file.as_str() == file
            && parts.topic.as_str() == topic
            && parts.element.as_str() == element,
    )
}

#[test]
fn a_value_is_read_in_its_parts(rt: HostRuntime) -> Result<(), Fail> {
    let alloc = rt.alloc();
    assert!(rt; has_parts(alloc, "a/b.dita#t/e", "a/b.dita", "t", "e")?);
    assert!(rt; has_parts(alloc, "#./e", "", ".", "e")?);
    Ok(())
}

#[test]
fn a_value_that_is_no_reference_has_its_fault(rt: HostRuntime) -> Result<(), Fail> {
    let alloc = rt.alloc();
    assert!(rt; refuses(read(alloc, "http://x/y")?, RefFault::External));
    assert!(rt; refuses(read(alloc, "a#")?, RefFault::BadFragment));
    assert!(rt; refuses(read(alloc, "")?, RefFault::Empty));
    Ok(())
}

#[test]
fn a_file_is_joined_to_the_folder(rt: HostRuntime) -> Result<(), Fail> {
    let alloc = rt.alloc();
    let above = name(alloc, "t.dita")?;
    assert!(rt; join(alloc, "m/x.ditamap", "../t.dita")?.is_ok_and(|name| name == above));
    let folder = name(alloc, "a")?;
    assert!(rt; join(alloc, "a/b", ".")?.is_ok_and(|name| name == folder));
    Ok(())
}

#[test]
fn a_file_that_is_no_document_has_its_fault(rt: HostRuntime) -> Result<(), Fail> {
    let alloc = rt.alloc();
    assert!(rt; refuses(join(alloc, "x.ditamap", "../t.dita")?, RefFault::AboveRoot));
    assert!(rt; refuses(join(alloc, "a/b", "/x")?, RefFault::AboveRoot));
    assert!(rt; refuses(join(alloc, "a", ".")?, RefFault::Empty));
    assert!(rt; refuses(join(alloc, "a", "b c")?, RefFault::BadName));
    Ok(())
}

#[test]
fn a_path_goes_up_to_the_root(rt: HostRuntime) -> Result<(), Fail> {
    let alloc = rt.alloc();
    let page = name(alloc, "a/b.html")?;
    let other = name(alloc, "c/d.html")?;
    assert!(rt; relative(alloc, &page, &other).is_ok_and(|path| path.as_str() == "../c/d.html"));
    Ok(())
}

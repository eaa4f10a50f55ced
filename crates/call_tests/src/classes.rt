//! Rows of class values, and of types that specialize others.

use crate::given::text;
use dita_class::{is_a, read_class, specializes};
use dita_doc::{ClassFault, ClassList, Sign, Stop, Text};
use std::alloc::{AllocError, Global};
use std::test::Fail;

fn class(alloc: Global, value: &str) -> Result<ClassList, AllocError> {
    match read_class(alloc, &text(alloc, value)?) {
        Ok(list) => Ok(list),
        Err(_) => Err(AllocError),
    }
}

fn fault(alloc: Global, value: &str) -> Result<Option<ClassFault>, AllocError> {
    match read_class(alloc, &text(alloc, value)?) {
        Ok(_) => Ok(None),
        Err(Stop::Fault(fault)) => Ok(Some(fault)),
        Err(Stop::NoMemory) => Err(AllocError),
    }
}

#[test]
fn a_class_value_is_a_sign_and_tokens(rt: HostRuntime) -> Result<(), Fail> {
    let step = class(rt.alloc(), "- topic/li task/step ")?;
    assert!(rt; step.sign == Sign::Structural);
    assert!(rt; are_two(step.tokens.as_slice(), "topic/li", "task/step"));
    Ok(())
}

fn are_two(tokens: &[Text], first: &str, second: &str) -> bool {
    match tokens {
        [one, other] => one.as_str() == first && other.as_str() == second,
        _ => false,
    }
}

#[test]
fn an_element_is_of_each_type_that_its_class_names(rt: HostRuntime) -> Result<(), Fail> {
    let alloc = rt.alloc();
    let step = class(alloc, "- topic/li task/step ")?;
    assert!(rt; is_a(&step, &text(alloc, "topic/li")?));
    assert!(rt; is_a(&step, &text(alloc, "task/step")?));
    assert!(rt; !is_a(&step, &text(alloc, "topic/ph")?));
    Ok(())
}

#[test]
fn a_domain_has_a_plus(rt: HostRuntime) -> Result<(), Fail> {
    let alloc = rt.alloc();
    let keyword = class(alloc, "\n\t+ topic/ph\n  hi-d/b\t")?;
    assert!(rt; keyword.sign == Sign::Domain);
    assert!(rt; keyword.tokens.len() == 2);
    Ok(())
}

#[test]
fn the_first_fault_of_a_value_is_told(rt: HostRuntime) -> Result<(), Fail> {
    let alloc = rt.alloc();
    assert!(rt; fault(alloc, "topic/p")? == Some(ClassFault::NoSign));
    assert!(rt; fault(alloc, "- ")? == Some(ClassFault::NoToken));
    assert!(rt; fault(alloc, "- topic")? == Some(ClassFault::BadToken));
    assert!(rt; fault(alloc, "- topic/p topic/p/q")? == Some(ClassFault::BadToken));
    assert!(rt; fault(alloc, "- topic/p")? == None);
    Ok(())
}

#[test]
fn a_special_type_begins_with_its_base(rt: HostRuntime) -> Result<(), Fail> {
    let alloc = rt.alloc();
    let step = class(alloc, "- topic/li task/step ")?;
    let item = class(alloc, "- topic/li ")?;
    assert!(rt; specializes(&step, &item));
    assert!(rt; !specializes(&item, &step));
    assert!(rt; specializes(&item, &item));
    assert!(rt; !specializes(&step, &class(alloc, "- task/step ")?));
    Ok(())
}

//! Rules of a DITAVAL, and what they exclude.

use crate::given::{document, name};
use dita_doc::{Action, Doc, Fault, FaultCode, List, Rule, Stop, Text};
use ditaval_rules::{
    Declarations, NotDitaval, RuleTable, RulesRead, declared, names_declared, read_rules, verdict,
};
use std::alloc::{AllocError, Global};
use std::test::Fail;

fn read(alloc: Global, lines: &str) -> Result<RulesRead, Stop<NotDitaval>> {
    read_rules(alloc, &name(alloc, "a.ditaval")?, &document(alloc, lines)?)
}

// The rules of a DITAVAL that can be read.
fn rules(alloc: Global, lines: &str) -> Result<List<Rule>, AllocError> {
    match read(alloc, lines) {
        Ok(read) => Ok(read.rules),
        Err(_) => Err(AllocError),
    }
}

// Whether an element with these lines of attributes goes, by the rules and by their table.
fn goes(alloc: Global, rules: &List<Rule>, lines: &str) -> Result<(bool, bool), AllocError> {
    let lines = format!(in alloc; "(p\n{lines}\n)p\n")?;
    let doc = document(alloc, lines.as_str())?;
    let names = declared_first(alloc, &doc)?;
    let table = RuleTable::of(rules.clone()?).map_err(|_| AllocError)?;
    let nodes = doc.nodes.as_slice();
    Ok((
        nodes
            .iter()
            .any(|node| verdict(rules, &names, &node.attributes)),
        nodes
            .iter()
            .any(|node| table.verdict(&names, &node.attributes)),
    ))
}

// The names that are declared for the first element.
fn declared_first(alloc: Global, doc: &Doc) -> Result<List<Text>, AllocError> {
    if doc.nodes.is_empty() {
        return Err(AllocError);
    }
    declared(alloc, doc, 0).map_err(|_| AllocError)
}

#[test]
fn an_element_goes_if_each_token_of_an_attribute_is_excluded(rt: HostRuntime) -> Result<(), Fail> {
    let alloc = rt.alloc();
    let rules = rules(
        alloc,
        "(val\n(prop\nAatt audience\nAval x\nAaction exclude\n)prop\n)val\n",
    )?;
    assert!(rt; goes(alloc, &rules, "Aaudience x y")? == (false, false));
    assert!(rt; goes(alloc, &rules, "Aplatform linux\nAaudience  x ")? == (true, true));
    assert!(rt; goes(alloc, &rules, "Aaudience x(x)\nAid x\nAprops ")? == (false, false));
    Ok(())
}

#[test]
fn a_declared_attribute_excludes(rt: HostRuntime) -> Result<(), Fail> {
    let alloc = rt.alloc();
    let rules = rules(
        alloc,
        "(val\n(prop\nAatt jobrole\nAval x\nAaction exclude\n)prop\n)val\n",
    )?;
    assert!(rt; goes(alloc, &rules, "Adomains a(props jobrole)\nAjobrole x")? == (true, true));
    assert!(rt; goes(alloc, &rules, "Adomains a(props job)\nAjobrole x")? == (false, false));
    Ok(())
}

fn is_name(names: &List<Text>, name: &str) -> bool {
    match names.as_slice() {
        [only] => only.as_str() == name,
        _ => false,
    }
}

#[test]
fn the_nearest_value_declares(rt: HostRuntime) -> Result<(), Fail> {
    let alloc = rt.alloc();
    let doc = document(
        alloc,
        "(a\nAdomains a(props x)\n(b\n(c\nAdomains a(props y)\n)c\n)b\n(d\n)d\n)a\n",
    )?;
    let made = Declarations::of(alloc, &doc).map_err(|_| AllocError)?;
    assert!(rt; is_name(made.at(1), "x") && is_name(made.at(2), "y") && is_name(made.at(3), "x"));
    assert!(rt; is_name(made.around(2), "x") && made.around(0).is_empty());
    Ok(())
}

#[test]
fn a_value_declares_names(rt: HostRuntime) -> Result<(), Fail> {
    let alloc = rt.alloc();
    let names = names_declared(
        alloc,
        "a(props props a(props x) a(props audience) a(props y",
    )
    .map_err(|_| AllocError)?;
    assert!(rt; is_name(&names, "x"));
    Ok(())
}

#[test]
fn a_tokens_rule_wins_and_then_an_attributes(rt: HostRuntime) -> Result<(), Fail> {
    let alloc = rt.alloc();
    let rules = rules(
        alloc,
        "(val\n(prop\nAaction exclude\n)prop\n\
         (prop\nAatt platform\nAaction passthrough\n)prop\n\
         (prop\nAatt platform\nAval x\nAaction exclude\n)prop\n)val\n",
    )?;
    assert!(rt; goes(alloc, &rules, "Aprops a")? == (true, true));
    assert!(rt; goes(alloc, &rules, "Aplatform a")? == (false, false));
    assert!(rt; goes(alloc, &rules, "Aplatform x")? == (true, true));
    Ok(())
}

// Six `prop`s, of which two are rules.
const FAULTY: &str = "(val\n\
    (prop\nAatt audience\nAval x\nAaction exclude\n)prop\n\
    (prop\nAatt audience\nAval y\nAaction hide\n)prop\n\
    (prop\nAatt audience\nAval x\nAaction include\n)prop\n\
    (prop\nAval x\nAaction flag\n)prop\n\
    (prop\nAval y\nAaction passthrough\n)prop\n\
    (prop\nAatt platform\nAval x\n)prop\n\
    )val\n";

fn faulty(alloc: Global) -> Result<RulesRead, AllocError> {
    read(alloc, FAULTY).map_err(|_| AllocError)
}

fn is_rule(rule: &Rule, att: Option<&str>, val: Option<&str>, action: Action) -> bool {
    rule.att.as_ref().map(|att| att.as_str()) == att
        && rule.val.as_ref().map(|val| val.as_str()) == val
        && rule.action == action
}

// Whether these are the rules of the two.
fn are_two(rules: &[Rule]) -> bool {
    match rules {
        [first, second] => {
            is_rule(first, Some("audience"), Some("x"), Action::Exclude)
                && is_rule(second, None, None, Action::Flag)
        }
        _ => false,
    }
}

#[test]
fn the_first_of_two_rules_counts(rt: HostRuntime) -> Result<(), Fail> {
    let read = faulty(rt.alloc())?;
    assert!(rt; are_two(read.rules.as_slice()));
    Ok(())
}

fn is_fault(fault: &Fault, line: u32, code: FaultCode, detail: &str) -> bool {
    fault.line == line && fault.code == code && fault.detail.as_str() == detail
}

// Whether these are the faults of the other four.
fn are_four(faults: &[Fault]) -> bool {
    match faults {
        [hide, twice, default, none] => {
            is_fault(hide, 7, FaultCode::BadAction, "hide")
                && is_fault(twice, 12, FaultCode::DitavalTwice, "audience")
                && is_fault(default, 21, FaultCode::DitavalTwice, "")
                && is_fault(none, 25, FaultCode::BadAction, "")
        }
        _ => false,
    }
}

#[test]
fn a_ditaval_is_read_with_its_faults(rt: HostRuntime) -> Result<(), Fail> {
    let read = faulty(rt.alloc())?;
    assert!(rt; are_four(read.faults.as_slice()));
    Ok(())
}

#[test]
fn another_root_is_no_ditaval(rt: HostRuntime) -> Result<(), Fail> {
    let read = read(rt.alloc(), "(vals\n)vals\n");
    assert!(rt; matches!(read, Err(Stop::Fault(NotDitaval))));
    Ok(())
}

//! What the key of an element gives.

ghost use Rattle.std.specs.Prelude.{◌≡◌, ◌++◌, [], ℕ, List, IfOk, OnOk};
ghost use Rattle.std.specs.Option.{option_copied};
ghost use Rattle.html_spec.specs.Anchors.{Here};
ghost use Rattle.readers.specs.Documents as documents_spec;
ghost use Rattle.readers.specs.Documents.{AsksOnly};
ghost use Rattle.readers.specs.Founded as founded_spec;
ghost use Rattle.readers.specs.Founded.{AreAllowed, Grows, StaysFounded};
ghost use Rattle.readers.specs.Told.{Agrees};
ghost use Rattle.xref_links.specs.Adding as spec;
ghost use Rattle.xref_links.specs.Names as names_spec;

use crate::page::{PageRead, PlacedElement};
use dita_doc::{Fault, FaultCode, KeyAnswer, List, NoMemory, Target, Text};
use doc_elements::append_faults;
use readers::Asker;
use targets::split_key;

// What the defined key of an element gives, and the id that stands behind the key.
#[derive(Drop)]
pub(crate) struct Keyed<'a> {
    pub id: Option<&'a str>,
    pub target: Target,
    pub label: Text,
}

// What the key of an element gives, if it names one that is defined; its faults are appended, and
// that it is undefined, unless an href stands beside it.
#[tactic(auto, using(readers::proofs::Rules::walking))]
pub(crate) fn defined_key<'a, A: Asker>(
    page: PageRead<'a>,
    asker: &mut A,
    standing: PlacedElement<'a>,
    faults: &mut List<Fault>,
) -> Result<Option<Keyed<'a>>, NoMemory>
    requires { spec.IsPlaced page standing }
    ensures known { (here : Here) → Agrees here.world (A.told asker.new)
        → spec.IsHere (A.stand asker.old) page.entry here → IfOk result (λ keyed. spec.HasKey here
        (spec.element_of page.entry standing.entry) keyed faults.old faults.new) }
    ensures given { (roots : List (List ℕ)) → IfOk result (λ keyed. AreAllowed roots
        (A.told asker.new) (names_spec.names_of_target (spec.target_of keyed))) }
    ensures stand { A.stand asker.new ≡ A.stand asker.old }
    ensures founded { StaysFounded (founded_spec.homes (A.stand asker.old).setting.nodes)
        (A.told asker.old) (A.told asker.new) }
    ensures asks { AsksOnly documents_spec.nothing [] (A.told asker.old) (A.told asker.new) }
    ensures grows { Grows (A.told asker.old) (A.told asker.new) }
{
    let Some(keyref) = standing.node.value_of("keyref") else {
        return Ok(None);
    };
    let (key, id) = split_key(keyref);
    let text = Text::from_str(page.alloc, key)?;
    let answer = asker.key(page.alloc, page.context.page.scope, &text)?;
    keyed_by(page, standing, key, id, answer, faults)
}

// What an answer gives; its faults are appended, and that the key is undefined, unless an href
// stands beside it.
fn keyed_by<'a>(
    page: PageRead<'a>,
    standing: PlacedElement<'a>,
    key: &str,
    id: Option<&'a str>,
    answer: KeyAnswer,
    faults: &mut List<Fault>,
) -> Result<Option<Keyed<'a>>, NoMemory>
    requires { spec.IsPlaced page standing }
    ensures { IfOk result (λ keyed. spec.IsKeyedBy (spec.element_of page.entry standing.entry)
        key.now (option_copied id.entry) answer keyed faults.old faults.new) }
{
    let KeyAnswer {
        node,
        target,
        label,
        faults: met,
    } = answer;
    append_faults(faults, met)?;
    if node.is_some() {
        return Ok(Some(Keyed { id, target, label }));
    }
    put_undefined(page, standing, key, faults)?;
    Ok(None)
}

// Appends the fault of an undefined key, unless an href stands beside it.
fn put_undefined(
    page: PageRead<'_>,
    standing: PlacedElement<'_>,
    key: &str,
    faults: &mut List<Fault>,
) -> Result<(), NoMemory>
    requires { spec.IsPlaced page standing }
    ensures { OnOk result (faults.new ≡ faults.old ++ spec.undefined_faults
        (spec.element_of page.entry standing.entry) key.now) }
{
    if standing.node.value_of("href").is_some() {
        return Ok(());
    }
    page.put_fault(standing, FaultCode::KeyUndefined, key, faults)
}

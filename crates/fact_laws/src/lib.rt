//! Laws of facts. Each function does nothing: its contract is the law.
#![tactic(auto)]

ghost use Rattle.std.specs.Arc.{arc_value};
ghost use Rattle.dita_doc.specs.Bytes.{Bytes};
ghost use Rattle.dita_doc.specs.Desk as desk_spec;
ghost use Rattle.fact_judge.specs.Agreed as agreed_spec;
ghost use Rattle.fact_judge.specs.Founded as founded_spec;
ghost use Rattle.fact_judge.specs.Sound.{IsSound};
ghost use Rattle.fact_laws.specs.Reached as reached_spec;
ghost use Rattle.fact_laws.specs.Unread as unread_spec;
ghost use Rattle.facts.specs.declared.fact.Fact.{Fact};

/// A document that a founded fact does not know makes nothing again: if sources differ in this
/// document alone, the fact's plan agrees with the new ones as with the old ones, and so do its own
/// questions, if those about keys and pushes have their answers there too. A fact knows the map, the
/// DITAVAL, and what its answers name.
pub fn unread_documents()
    ensures plan { (fact : Fact) (name : Bytes) (old new : desk_spec.State)
        → founded_spec.IsFoundedFact fact
        → unread_spec.IsUnknown (unread_spec.known_to_plan fact) name
        → unread_spec.DifferAt name old new → agreed_spec.plan_agrees (arc_value fact.plan) old
        → agreed_spec.plan_agrees (arc_value fact.plan) new }
    ensures own { (fact : Fact) (name : Bytes) (old new : desk_spec.State)
        → founded_spec.IsFoundedFact fact
        → unread_spec.IsUnknown (unread_spec.known_to_fact fact) name
        → unread_spec.DifferAt name old new → unread_spec.KeysAndPushesStay fact new
        → agreed_spec.own_agrees fact old → agreed_spec.own_agrees fact new }
{}

/// A build finds again what another made: a sound fact agrees with some sources exactly if it agrees
/// with others that have the same documents under all names that a build of its map and DITAVAL
/// reaches in the first.
pub fn reached_documents()
    ensures forth { (fact : Fact) (first second : desk_spec.State) → IsSound fact
        → reached_spec.AreSameReached fact first second → reached_spec.AgreesWith fact first
        → reached_spec.AgreesWith fact second }
    ensures back { (fact : Fact) (first second : desk_spec.State) → IsSound fact
        → reached_spec.AreSameReached fact first second → reached_spec.AgreesWith fact second
        → reached_spec.AgreesWith fact first }
{}

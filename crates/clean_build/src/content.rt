//! The content of a page, for what it is made for.

ghost use Rattle.std.specs.Arc.{arc_value};
ghost use Rattle.std.specs.Prelude.{◌≡◌, ◌++◌, ◌∷◌, List, ℕ, IfOk, OnOk};
ghost use Rattle.clean_build.specs.Bodies as bodies_spec;
ghost use Rattle.clean_build.specs.Bodies.{AreKnown};
ghost use Rattle.clean_build.specs.Told.{made_for};
ghost use Rattle.conref_targets.specs.Asking as asking_spec;
ghost use Rattle.conref_pull.specs.Resolved.{IsResolved};
ghost use Rattle.conref_targets.specs.PageAsking.{AsksPage, page_at};
ghost use Rattle.conref_targets.specs.Rules.{AreRules, all_kept, ditavals};
ghost use Rattle.conref_targets.specs.ResolveInput.{documents_in};
ghost use Rattle.conref_targets.specs.Tables.{AreTables};
ghost use Rattle.dita_doc.specs.declared.plan.Plan.{Plan};
ghost use Rattle.doc_maker.specs.Made as resolved_spec;
ghost use Rattle.reader_spec.specs.World.{World};
ghost use Rattle.readers.specs.Documents.{AsksOnly};
ghost use Rattle.readers.specs.Founded as founded_spec;
ghost use Rattle.readers.specs.Founded.{AreAllowed, Grows, StaysFounded};
ghost use Rattle.readers.specs.Named as named_spec;
ghost use Rattle.readers.specs.Told.{Agrees};

use conref_pull::{Tables, resolve_page_with};
use dita_doc::{Context, NoMemory, Resolved};
use readers::Asker;
use std::alloc::Global;
use std::sync::Arc;

/// The content of the page of a context, with its references resolved. The tables have all rules of
/// the page then.
pub fn resolved_for<A: Asker>(
    alloc: Global,
    asker: &mut A,
    tables: &mut Tables,
    context: &Arc<Context>,
) -> Result<Resolved, NoMemory>
    ensures known { (world : World) (plan : Plan) → Agrees world (A.told asker.new)
        → (A.stand asker.old).setting ≡ made_for plan
        → AreKnown (A.stand asker.old).world world plan tables.old
        → IfOk result (λ resolved.
        IsResolved resolved (bodies_spec.content_of world plan (arc_value context.now))) }
    ensures kept { AreRules (A.stand asker.old).world tables.old.rules
        → OnOk result (AreRules (A.stand asker.old).world tables.new.rules) }
    ensures places { (world : World) (plan : Plan) → Agrees world (A.told asker.new)
        → (A.stand asker.old).setting ≡ made_for plan
        → AreKnown (A.stand asker.old).world world plan tables.old
        → OnOk result (AreTables (documents_in world (made_for plan)) tables.new.places) }
    ensures rules { AreRules (A.stand asker.old).world tables.old.rules
        → (world : World) → Agrees world (A.told asker.new)
        → OnOk result (all_kept tables.new.rules
        (ditavals (arc_value context.now).val (arc_value context.now).page.filters)
        ≡ bodies_spec.rules_for world (arc_value context.now)) }
    ensures stand { A.stand asker.new ≡ A.stand asker.old }
    ensures founded { StaysFounded (founded_spec.homes (A.stand asker.old).setting.nodes
        ++ (arc_value context.now).page.doc
        ∷ ditavals (arc_value context.now).val (arc_value context.now).page.filters)
        (A.told asker.old) (A.told asker.new) }
    ensures asks { AsksOnly asking_spec.of_content ((arc_value context.now).page.doc
        ∷ ditavals (arc_value context.now).val (arc_value context.now).page.filters)
        (A.told asker.old) (A.told asker.new) }
    ensures only { (world : World) → Agrees world (A.told asker.new)
        → OnOk result (AsksPage (page_at world (A.stand asker.old).setting
        (arc_value context.now).val (arc_value context.now).page) (A.told asker.old)
        (A.told asker.new)) }
    ensures given { IfOk result (λ resolved. (roots : List (List ℕ)) → AreAllowed roots
        (A.told asker.new) (named_spec.linked_in (resolved_spec.resolved_tree resolved))) }
    ensures grows { Grows (A.told asker.old) (A.told asker.new) }
{
    resolve_page_with(alloc, asker, tables, context)
}

//! Laws of the language: what holds of every plan, of paths, and of the bounds of recursions. Each
//! function does nothing: its contract is the law.
#![tactic(auto)]

ghost use Rattle.std.specs.Prelude.{◌≡◌, ◌≤◌, ℕ, List, [], Option, Ok};
ghost use Rattle.dita_doc.specs.declared.plan.Plan.{Plan};
ghost use Rattle.ditaval_rules.specs.declared.rules.RulesRead.{RulesRead};
ghost use Rattle.language_laws.specs.Kept as kept_spec;
ghost use Rattle.build_plan.specs.PageNames as page_names_spec;
ghost use Rattle.language_laws.specs.Paths as paths_spec;
ghost use Rattle.language_laws.specs.PlanTree as plan_tree_spec;
ghost use Rattle.language_laws.specs.Steps as steps_spec;
ghost use Rattle.map_spec.specs.Included as included_spec;
ghost use Rattle.map_spec.specs.MapTree.{Grown};
ghost use Rattle.map_spec.specs.PlanOf as plan_spec;
ghost use Rattle.map_spec.specs.Written.{Element, Written};
ghost use Rattle.conref_spec.specs.Content as content_spec;
ghost use Rattle.reader_spec.specs.World.{World};

/// The nodes of a plan are a tree in preorder, with their parents and ends.
pub fn nodes_are_a_tree()
    ensures { (most : plan_spec.Limits) (world : World) (map : List ℕ) (val : Option (List ℕ))
        (plan : Plan) → plan_spec.plan_of most world map val ≡ Ok plan →
        plan_tree_spec.IsPlanTree plan.nodes }
{}

/// No two pages of a plan have one name, and each name fits into the folder of its build.
pub fn names_differ()
    ensures differ { (world : World) (map : List ℕ) (val : Option (List ℕ)) (plan : Plan) →
        plan_spec.plan_of plan_spec.limits world map val ≡ Ok plan →
        page_names_spec.HasDistinctNames plan.pages }
    ensures fit { (world : World) (map : List ℕ) (val : Option (List ℕ)) (plan : Plan) →
        plan_spec.plan_of plan_spec.limits world map val ≡ Ok plan →
        page_names_spec.FitsFolders plan.pages }
{}

/// A page's page is itself.
pub fn pages_are_their_own()
    ensures { (most : plan_spec.Limits) (world : World) (map : List ℕ) (val : Option (List ℕ))
        (plan : Plan) → plan_spec.plan_of most world map val ≡ Ok plan →
        page_names_spec.IsItsOwn plan.pages }
{}

/// No node behind the root stands in a plan whose element the rules of the build exclude, or those
/// of a DITAVAL among its filters. A group has no element.
pub fn excluded_nodes_go()
    ensures { (most : plan_spec.Limits) (world : World) (map : List ℕ) (val : Option (List ℕ))
        (read : RulesRead) (plan : Plan) → plan_spec.build_rules world val ≡ Ok read →
        plan_spec.plan_of most world map val ≡ Ok plan →
        kept_spec.AreKept world read.rules plan.nodes }
{}

/// No map is included within itself, and no target is resolved within itself; a path of targets
/// has no more than its limit.
pub fn paths_have_no_cycle()
    ensures maps { (limit : ℕ) (world : World) (map : List ℕ) (grown : Grown) →
        included_spec.included limit world map ≡ Ok grown →
        paths_spec.HasNoCycle [] grown.tree }
    ensures targets { (setting : content_spec.ResolveInput) (topic : List ℕ) (depth : ℕ)
        (path : List content_spec.Place) (element : Element) (inside : Written) →
        paths_spec.IsPath path → paths_spec.HasPaths path
        (content_spec.followed setting topic depth path element inside) }
{}

/// The definitions give the same with more steps than they take: walks; scopes around a scope, and
/// items, if parents stand before their nodes; and names, if fewer than 2^64 - 2 are taken.
pub fn more_steps_change_nothing()
    ensures included { steps_spec.IncludedIsWhole }
    ensures walk { steps_spec.WalkIsWhole }
    ensures qualified { steps_spec.QualifiedIsWhole }
    ensures found { steps_spec.FoundIsWhole }
    ensures chain { steps_spec.ChainIsWhole }
    ensures free { steps_spec.FreeIsWhole }
    ensures items { steps_spec.ItemsIsWhole }
    ensures followed { steps_spec.FollowedIsWhole }
    ensures resolved { steps_spec.ResolvedIsWhole }
{}

//! The parts of builds of maps, as tables of rows and books know them.

ghost use Rattle.fact_judge.specs.Agreed as agreed_spec;
ghost use Rattle.fact_judge.specs.Sound as sound_spec;

use facts::Parts;

/// What the parts of builds of maps are.
pub struct MapParts;

impl Parts for MapParts {
    ghost plan_agrees = { agreed_spec.plan_agrees };

    ghost own_agrees = { agreed_spec.own_agrees };

    ghost is_sound = { sound_spec.IsSound };
}

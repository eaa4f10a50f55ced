//! What the builds of sessions give, where no makers can be named.

ghost use Rattle.desk_session.specs.Answers as answers_spec;

use desk_work::Makers;
use facts::Parts;
use std::marker::PhantomData;

/// What the builds of a session give. It stands for the makers of parts in the type of a session
/// that was begun: a type that names theirs can't be handed to a scope of threads.
pub(crate) trait Builds: Sync {
    ghost clean: { answers_spec.CleanBuild };
}

/// What these makers give.
pub(crate) struct BuildsOf<P, M> {
    _parts: PhantomData<P>,
    _makers: PhantomData<M>,
}

impl<P: Parts + Send + Sync, M: Makers<P>> Builds for BuildsOf<P, M> {
    ghost clean = { M.language.clean };
}

//! The callbacks of a cache: whether they are those that its configuration names, and their answer to one request.
ghost use Rattle.std.specs.Prelude.{◌≡◌, ◌↔◌, ◌∷◌, [], IsTrue, IfOk};
ghost use Rattle.jc_model.specs.Run.{is_answer_to};
ghost use Rattle.jc_runner.specs.Answering.{Heard};
ghost use Rattle.jc_runner.specs.Hooks.{AreSuited, HasNoHooks, asked_of};

pub mod named;

use jc_config::Settings;
use jc_hooks::{
    CacheHooks, FilteredListener, Loader, Processor, Writer, answer_request, first_unsuited,
};
use jc_model::OutOfMemory;
use jc_model::call::{Answer, Request};
use std::alloc::Global;

/// Whether each cache has the callbacks that its configuration names, and no others.
pub fn all_suit<L: Loader, W: Writer, P: Processor, K: FilteredListener>(
    settings: &Settings,
    hooks: &[CacheHooks<L, W, P, K>],
) -> bool
    ensures { IsTrue result ↔ AreSuited P.wants settings.now hooks.now }
{
    match first_unsuited(settings.caches(), hooks) {
        None => true,
        Some(_) => false,
    }
}

/// The callbacks of a cache that has none.
pub(crate) fn no_hooks<L: Loader, W: Writer, P: Processor, K: FilteredListener>(
    alloc: Global,
) -> CacheHooks<L, W, P, K>
    ensures { HasNoHooks result }
{
    CacheHooks {
        loader: None,
        writer: None,
        processors: Vec::new(alloc),
        listeners: Vec::new(alloc),
    }
}

/// The answer of a cache's callbacks to a request. A callback that is not there fails.
pub fn answer<L: Loader, W: Writer, P: Processor, K: FilteredListener>(
    alloc: Global,
    hooks: &mut CacheHooks<L, W, P, K>,
    request: Request,
) -> Result<Answer, OutOfMemory>
    ensures fits { IfOk result (λ a. IsTrue (is_answer_to request a)) }
    ensures kept { asked_of hooks.new ≡ asked_of hooks.old }
    ensures heard { IfOk result (λ a. Heard L.load_of W.may P.verdict_of K.state_after
        hooks.old hooks.new ((request, a) ∷ [])) }
{
    answer_request(
        alloc,
        &hooks.loader,
        hooks.processors.as_slice(),
        &mut hooks.writer,
        hooks.listeners.as_mut_slice(),
        &request,
    )
}

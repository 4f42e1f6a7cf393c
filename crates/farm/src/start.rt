//! Threads that are started.

ghost use Rattle.std.specs.Prelude.{◌≡◌, IfErr, IfOk};

use std::thread::{Promise, PromisedHandle, Scope};

/// The system refused to start a thread. Only [`start_farm_worker_thread`] makes one, from what the toolchain's `spawn_with` hands back.
#[derive(Clone, Copy, Debug, PartialEq, Eq)]
pub struct ThreadRefusal {
    by_spawn: (),
}

/// Starts work in a thread of its own, whose result keeps a promise. Work that is refused is handed back: no thread has begun it.
pub fn start_farm_worker_thread<
    's,
    E,
    P: Promise<T> + Drop,
    F: FnOnce() -> T + Send + Drop + 's,
    T: Send + Drop + 's,
>(scope: &Scope<'s, E>, promise: P, work: F) -> Result<PromisedHandle<T, P>, (F, ThreadRefusal)>
    requires runs { F.pre work }
    requires keeps { (r : T) → F.post work r → P.kept_by promise r }
    ensures promised { IfOk result (λ handle. handle.promise ≡ promise) }
    ensures handed_back { IfErr result (λ refused. refused.0 ≡ work) }
{
    match scope.spawn_with(promise, work) {
        Ok(handle) => Ok(handle),
        Err(refused) => Err((refused.value, ThreadRefusal { by_spawn: () })),
    }
}

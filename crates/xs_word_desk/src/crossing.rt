use crate::cache::{Cache, Pass};
use crate::desk::WordDesk;
use xs_base::crosses_threads;
use xs_pixel::Film;

/// Compiles where values of a type may be sent to another thread.
fn goes_to_threads<T: Send>() {}

/// A cache may be sent to another thread, and shared with it; its desks and passes may be sent there.
pub fn caches_cross_threads<'a, K: Film + 'a>() {
    crosses_threads::<Cache<K>>();
    goes_to_threads::<Pass>();
    goes_to_threads::<WordDesk<'a, K>>();
}

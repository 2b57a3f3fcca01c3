use crate::list::List;

/// Compiles where values of a type may be sent to another thread, and shared with it.
pub fn crosses_threads<T: Send + Sync>() {}

/// A list may be sent to another thread, and shared with it, where its items may.
pub fn list_crosses_threads<T: Send + Sync>() {
    crosses_threads::<List<T>>();
}

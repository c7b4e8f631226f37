//! What may go to other threads.

/// A value of this type may go to another thread.
pub fn crosses_threads<T: Send>() {}

/// Several threads may use one value of this type at once.
pub fn is_shared_by_threads<T: Sync>() {}

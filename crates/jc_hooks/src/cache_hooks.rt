//! The callbacks of one cache.

/// One cache's callbacks, in the order of its configuration. The struct asks nothing of their types, so that it
/// also holds boxed ones: `CacheHooks<Box<dyn Loader>, Box<dyn Writer>, Box<dyn Processor>, ListenerHook<Box<dyn Filter>, Box<dyn Listener>>>`.
#[derive(Drop)]
pub struct CacheHooks<L, W, P, K> {
    /// Asked for missing keys, where the cache reads through.
    pub loader: Option<L>,
    /// Asked before each change, where the cache writes through.
    pub writer: Option<W>,
    /// Named in calls by their place.
    pub processors: Vec<P>,
    /// In the order in which they were registered.
    pub listeners: Vec<K>,
}

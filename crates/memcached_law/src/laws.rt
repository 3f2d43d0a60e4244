//! The page of a client, proved of a server.
ghost use Rattle.memcached_law.specs.Law.{MemcachedInStore};

/// A store over connections alone, that no image filled, serves its clients as the page says, key by key: where the net tells its ports, and what listens tells its logs.
pub fn memcached_in_store()
    ensures { MemcachedInStore }
{}

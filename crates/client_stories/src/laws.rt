//! That a store's clients are served as the page says.
ghost use Rattle.client_stories.specs.Stories.{BytesAskFit, ServesClientsOfStore};

/// Where fronts over connections answered lawfully, from where nothing was stored, and each talked with the clients of its share, a store's clients are served as its page says: key by key, no item is lost, and nothing is refused but where its part is full.
pub fn store_clients()
    ensures { ServesClientsOfStore }
{}

/// What bytes ask of keys is fit, in whatever spelling.
pub fn fit_asks()
    ensures { BytesAskFit }
{}

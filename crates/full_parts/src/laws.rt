//! That a store refuses nothing else.
ghost use Rattle.full_parts.specs.Full.{StoreRefusesWhereFull};

/// A part of a store refuses something only where it is worn, or some layout of the rooms of its items leaves no block for it, or its keys are more than the spare buckets are for.
pub fn store_refuses()
    ensures { StoreRefusesWhereFull }
{}

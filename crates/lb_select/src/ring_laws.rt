//! Laws of consistent hashing, over its definitions alone. Each function here does nothing at run time, and its contract holds for every
//! set of backends and every key.
ghost use Rattle.std.specs.Prelude.{◌≡◌, codes};
ghost use Rattle.lb_select.specs.Crc.{crc};
ghost use Rattle.lb_select.specs.Rings.{RingLaw};
ghost use Rattle.lb_select.specs.Removal.{ChainLaw, RemovalLaw, AdditionLaw, RaisingLaw, OneCandidateLaw, CoverageLaw};

/// CRC-32 gives the check value of its standard for the text `123456789`.
pub fn check_value_law()
    ensures { crc (codes "123456789") ≡ 0xcbf43926 }
{}

/// The owner of a candidate that a ring of points returns is the owner by the points that the ring was made of.
pub fn ring_law()
    ensures { RingLaw }
{}

/// The chain of CRCs that the selector uses is a chain for which the laws hold.
pub fn chain_law()
    ensures { ChainLaw }
{}

/// Removing an address changes no first choice that had another address.
pub fn removal_law()
    ensures { RemovalLaw }
{}

/// Adding an address changes first choices to that address alone.
pub fn addition_law()
    ensures { AdditionLaw }
{}

/// Raising the weight of a backend changes first choices to its address alone.
pub fn raising_law()
    ensures { RaisingLaw }
{}

/// Each candidate of a key is one backend by identity.
pub fn one_candidate_law()
    ensures { OneCandidateLaw }
{}

/// A walk over as many candidates as there are points yields every address that owns one.
pub fn coverage_law()
    ensures { CoverageLaw }
{}

//! Groups: a worker that is lost, by calls; and random words that a world is given.
mod losses;
mod worlds;

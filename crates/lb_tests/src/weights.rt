//! Weights: places of partial sums, and walks by loads that change.
mod least;
mod places;

//! Schedules and runs at worked values, with moments and frequencies in nanoseconds.
mod runs;
mod tasks;

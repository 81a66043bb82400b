//! Tests of the home of requests: an attempt of each kind, driven by hand. They stand beside the crate that they
//! test, so that it is proved once, and not once more together with its tests.
#![tactic(auto)]

#[cfg(test)]
mod attempts;
mod fixtures;

pub use fixtures::first_fid;

// Exports for comparison only: what document 01 does not call from C, under names of its own, so that `oracle/` can run it
// beside the original. Each has the contract of the function it calls.
#![tactic(auto)]

pub mod bands;
pub mod covariance_model;
mod covariances;
pub mod floats;
pub mod grey_files;
pub mod grids;
pub mod pixel_gradients;
pub mod samples;
pub mod windows;

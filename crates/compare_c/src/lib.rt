// What compare offers, as C calls: each calls its namesake there, under its clauses. They stand twice since a crate is a library
// or a static library.
#![tactic(auto)]

mod bands;
mod covariance_model;
mod floats;
mod grey_files;
mod grids;
mod pixel_gradients;
mod samples;
mod windows;

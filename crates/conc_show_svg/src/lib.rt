//! A history as a picture: a band of lanes for the places, and a band of rows for the requests, over the
//! events. Lengths from left to right are told in hundredths of a unit.
#![tactic(auto)]

mod bars;
mod escaped;
mod frame;
mod geometry;
mod labels;
mod marks;
mod moments;
mod picture;
mod readings;
mod rows;
mod scene;
mod spans;

pub use picture::put_svg;

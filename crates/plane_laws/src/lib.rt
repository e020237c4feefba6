//! Laws of the contour lines of a plane.
#![tactic(auto)]

//! The server's side of a trial, as definitions and lemmas with no code: what its archive has in the midst of a trial, in each image
//! that a power loss may leave; what the frames of one line do to it; the medium's calls on one line, against a fuse; and what a
//! restart leaves.
#![tactic(auto)]

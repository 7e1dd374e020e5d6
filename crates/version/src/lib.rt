// The version of everything here: the programs, the library for C with its pkg-config file and manual pages, the Rust crate. It is said in
// these three lines; whatever has to say it again is refused if it differs, by the prover (`larusqem_version`) or by tests/version.py.
#![tactic(auto)]

pub const MAJOR: u32 = 0;

pub const MINOR: u32 = 1;

pub const PATCH: u32 = 0;

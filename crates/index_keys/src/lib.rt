//! What keys the indexes of an array have, and how they gain and lose one: words alone, which records of tables and the steps of callers share.
//!
//! Read `specs/Keys`.
#![tactic(auto)]

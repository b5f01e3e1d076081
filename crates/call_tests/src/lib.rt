//! Tests of public calls: the examples over an array, a primary and its follower, reads from memory, restores that lose power, histories by
//! hand, texts that no run writes, and callers that share a core. They stand here since a crate with tests of its own is proved twice. Begin
//! with `tests::counting`: a counter is raised, and its array is opened again. In `accounts` power is lost at each call of a transfer, and in
//! `losing` at each of a restore over another array. In `beside_a_read` a medium holds its reader (`held_media`), another caller is told who
//! has the turn, and then waits for it. No clause says that these calls succeed at all, nor how a text reads, nor which schedule comes about.
#![tactic(auto)]

#[cfg(test)]
mod tests;

//! Trees of pages: what makes one sound, how a key is found in it, and what the changes of an insertion and of a removal keep.
//!
//! Read first `specs/Tree` (a sound tree and its first damaged page are one check), `specs/Changes` and `specs/Removals` (what one action
//! writes). The laws in `laws.rt` say that each change keeps a tree, and that it changes just the pair that it is to change.
#![tactic(auto)]

mod laws;
mod removals;
mod root;

pub use laws::{
    checks_have_one_verdict, descent_finds, fresh_is_sound, the_rest_leaves_the_tree,
    tree_changes_keep, tree_rises, trees_are_apart,
};
pub use removals::{
    last_pairs_stay, leaves_are_joined_here, removal_takes_one, removals_add_no_page,
    removals_are_chosen, removals_lose_no_page, tree_removals_keep, what_is_left_is_small,
};
pub use root::Root;

// Cuts: why no reduction step loses anything. Theory alone: each function does nothing, and its contract is a theorem.
#![tactic(auto)]

mod bounds;
mod conditions;
mod examples;
mod fewest;
mod mistakes;
mod rules;
mod runs;

pub use bounds::{disjoint_pairs_bound, met_pairs_bound};
pub use conditions::{
    common_factor_is_decided, disjoint_pairs_are_decided, dominated_link_is_decided,
    dominated_pair_is_decided, idle_link_is_decided, overloaded_link_is_decided, steps_are_decided,
    unit_road_is_decided,
};
pub use examples::{ladder_is_solved, rules_apply};
pub use fewest::{fewest_is_found, fewest_is_unique, search_decides};
pub use mistakes::{cut_loose_is_wrong, drop_both_is_wrong, weld_both_is_wrong};
pub use rules::{
    common_factor_loses_nothing, disjoint_pairs_leave_no_cut, dominated_link_loses_nothing,
    dominated_pair_loses_nothing, idle_link_loses_nothing, overloaded_link_loses_nothing,
    unit_road_loses_nothing,
};
pub use runs::{
    listed_steps_add_up, listed_steps_run, reductions_are_faithful, reductions_compose,
    runs_are_faithful, runs_leave_no_empty_road, runs_lose_nothing,
    runs_to_disjoint_pairs_leave_no_cut, steps_lose_nothing,
};

// What each reduction rule asks of the roads, asked of any road-book.
#![tactic(auto)]

mod all;
mod common;
mod faulty;
mod listed;

pub use all::{is_always_with, is_road_alone, is_road_within, passes_no_road};
pub use common::Common;
pub use faulty::{first_closed, first_repeat, is_among};
pub use listed::{all_pass, share_only};

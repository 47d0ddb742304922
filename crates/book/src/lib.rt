// Road-books: anything that tells which links are on which pair's road, and obeys the tree law.
#![tactic(auto)]

mod climbing;
mod filling;
mod leg;
mod promises;
mod road_book;
mod sheet;
mod sheet_roads;

pub use climbing::ClimbingBook;
pub use leg::Leg;
pub use promises::{tellers_cut_alike, tellers_have_roads};
pub use road_book::RoadBook;
pub use sheet::Sheet;

//! The maps of grids, read from their own texts, and routes over them: a walk across a grid by a
//! profile, and the route across its hills.
#![tactic(auto)]

mod crossing;
mod error;
mod law;
mod lengths;
mod made;
mod making;
mod priced;
mod prices;
mod summary;
mod texts;
mod total;

pub use crossing::hills;
pub use error::MadeError;
pub use law::grids_are_maps;
pub use making::made_map;
pub use priced::{PricedWalk, walk_by_profile};
pub use summary::Hills;

//! Answers to requests: the legs of a track searched one after the other, in turns, each in its
//! alternatives; and the profiles that requests name.
#![tactic(auto)]

mod advance;
mod aim;
mod asking;
mod begin;
mod certificate;
mod certificate_steps;
mod job;
mod listing;
mod marks;
mod nearby_json;
mod nearby_lines;
mod nearby_parts;
mod nearby_text;
mod numbers;
mod pendings;
mod placing;
mod placing_stage;
mod placing_steps;
mod plan;
mod replying;
mod routing;
mod search;
mod searches;
mod sources;
mod stage;
mod table;
mod table_stage;
mod table_steps;
mod table_text;
mod told;
mod walked;
mod waypoints;
mod within;
mod within_steps;

pub use aim::{Aim, most_for};
pub use asking::{Asking, AskingStage};
pub use certificate::CertificateJob;
pub use job::Job;
pub use nearby_text::NearbyText;
pub use pendings::Pending;
pub use placing::Placing;
pub use plan::JobPlan;
pub use replying::{nearby_reply, reply, table_reply};
pub use routing::{route, route_by};
pub use search::Search;
pub use table::TableJob;
pub use table_stage::CostRows;
pub use told::Told;
pub use waypoints::waypoint_nodes;
pub use within::{Nearby, WithinJob};

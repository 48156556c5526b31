//! What the program needs of the outside, as traits whose calls fail only where they count it.
#![tactic(auto)]

mod admitting;
mod door;
mod event;
mod failed;
mod files;
mod follow;
mod hub;
mod idle;
mod leaving;
mod peers;
mod replies;
mod send;
mod sink;
mod sockets;
mod system_files;
mod tcp_hub;
mod turns;
mod whole;
mod whole_error;
mod writer;

pub use event::Event;
pub use failed::{Failed, next_count};
pub use files::Files;
pub use hub::Hub;
pub use send::send_all;
pub use sink::Sink;
pub use system_files::DirFiles;
pub use tcp_hub::TcpHub;
pub use whole::read_whole;
pub use whole_error::WholeError;
pub use writer::{StdSink, WriteSink};

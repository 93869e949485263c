//! Frames and trailers of gRPC-Web (gRPC-Web protocol, "Message framing"): payload bytes, in whatever pieces they come, become messages and
//! trailers, or a fault that is exactly the first; and both are written.
#![tactic(auto)]

mod event;
mod fault;
mod head;
mod laws;
mod limits;
mod lines;
mod reader;
mod reading;
mod state;
mod status;
mod writing;

pub use event::FrameEvent;
pub use fault::FrameFault;
pub use head::frame_head;
pub use laws::{
    faults_are_read, frames_are_read, pieces_join, requests_are_read, trailers_are_read,
    whole_frames_are_read, written_frames_are_read, written_trailers_are_read,
};
pub use limits::{REQUEST_LIMIT, RESPONSE_LIMIT, Side};
pub use reader::FrameReader;
pub use reading::{read_trailers, trailers_of};
pub use state::FramePlace;
pub use status::Trailers;
pub use writing::put_trailers;

#[cfg(test)]
mod tests;

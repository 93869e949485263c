//! Requests that hold no plan as messages: read of their fields exactly, and written in one spelling.
#![tactic(auto)]

mod config;
mod config_writing;
mod context_field;
mod interrupt;
mod interrupt_writing;
mod laws;
mod operation_reading;
mod option_field;
mod reattach;
mod release;
mod release_writing;
mod user_context;

pub use config::{ConfigOperation, ConfigRequest, config_depth, config_from};
pub use config_writing::{config_size, put_config};
pub use context_field::{context_depth, context_from, context_size, put_context};
pub use interrupt::{InterruptRequest, InterruptTarget, interrupt_depth, interrupt_from};
pub use interrupt_writing::{interrupt_size, put_interrupt};
pub use laws::{
    config_requests_are_read_back, interrupt_requests_are_read_back,
    reattach_requests_are_read_back, reattachable_is_read_back, release_requests_are_read_back,
    request_texts_are_kept, requests_are_valid, user_contexts_are_read_back,
};
pub use option_field::{
    put_reattachable, reattachable_depth, reattachable_from, reattachable_size,
};
pub use reattach::{ReattachRequest, put_reattach, reattach_depth, reattach_from, reattach_size};
pub use release::{Release, ReleaseRequest, release_depth, release_from};
pub use release_writing::{put_release, release_size};
pub use user_context::{UserContext, put_user_context, user_context_from, user_context_size};

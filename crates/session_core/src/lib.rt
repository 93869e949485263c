//! The sessions of a server and their settings: what each operation on settings answers and changes, and the ids of sessions and operations.
#![tactic(auto)]

mod allowed;
mod answers;
mod changes;
mod ids;
mod keys;
mod laws;
mod places;
mod presets;
mod refusal;
mod session;
mod sessions;
mod shown;
#[cfg(test)]
mod tests;

pub use cn_types::{Pair, Settings};
pub use ids::parse_id;
pub use keys::{HandleField, Key, SessionKey};
pub use laws::{ids_fold_case, integers_are_written, presets_stay};
pub use refusal::ConfigRefusal;
pub use sessions::Sessions;

use cn_types::Settings;

/// A session: its settings, and the last moment at which an accepted request named it.
#[derive(Debug, Drop)]
pub(crate) struct Session {
    pub(crate) settings: Settings,
    pub(crate) last: u64,
}

ghost use Rattle.std.specs.Prelude.{◌≡◌, ◌≢◌, ◌<◌, [], length, position, remove, slice_get, Some, IfOk, IfErr, IfSome, OnOk, OnErr, IsTrue};
ghost use Rattle.std.specs.Map.{keys_of};
ghost use Rattle.std.specs.Option.{option_map, option_map_or};
ghost use Rattle.session_core.specs.Config as config;
ghost use Rattle.session_core.specs.Presets.{presets as first_settings};
ghost use Rattle.session_core.specs.Sessions as specs;

use crate::answers::answered;
use crate::changes::changed;
use crate::presets::presets;
use crate::session::Session;
use crate::{ConfigRefusal, SessionKey};
use cn_base::{Copied, List, OutOfMemory};
use cn_types::{Pair, Settings};
use indexmap::IndexMap;
use request_messages::ConfigOperation;
use std::alloc::Global;
use std::marker::Model;

/// The sessions of a server, in the order in which they were made, and how many there may be.
#[derive(Drop)]
pub struct Sessions {
    limit: u32,
    sessions: IndexMap<SessionKey, Session>,
}

impl Model for Sessions {
    ghost use Rattle.session_core.specs.Sessions.{Opened};

    ghost Value = { Opened };

    ghost view = { λ s. record { limit = s.limit; sessions = s.sessions.entries } };
}

impl Sessions {
    /// No session, and room for `limit`. It takes no memory.
    pub fn new(alloc: Global, limit: u32) -> Sessions
        ensures { result ≡ record { limit = limit; sessions = [] } }
    {
        Sessions {
            limit,
            sessions: IndexMap::new(alloc),
        }
    }

    /// Whether a request of the session may be accepted: it is there, or there may be one more. It takes no memory.
    pub fn may_admit(&self, session: &SessionKey) -> bool
        ensures { result ≡ specs.may_admit self.now session.now }
    {
        self.sessions.contains_key(session) || self.sessions.len() < self.limit as usize
    }

    /// Notes an accepted request at the moment `now`: makes the session with the presets where it isn't there. It takes memory only for a
    /// new session, and changes nothing where there is none.
    pub fn admit(
        &mut self,
        alloc: Global,
        session: &SessionKey,
        now: u64,
    ) -> Result<(), OutOfMemory>
        requires { IsTrue (specs.may_admit self.old session.now) }
        ensures ok { OnOk result (self.new ≡ specs.named self.old session.now (specs.settings_of self.old session.now) now) }
        ensures err { OnErr result (self.new ≡ self.old) }
    {
        match self.place_of(session) {
            Some(place) => {
                self.note(place, None, now);
                Ok(())
            }
            None => {
                let key = session.copy(alloc)?;
                let settings = presets(alloc)?;
                self.make(key, settings, now)
            }
        }
    }

    /// The place of a session, where it is there.
    fn place_of(&self, session: &SessionKey) -> Option<usize>
        ensures place { result ≡ position (specs.same_key session.now) (keys_of self.now.sessions) }
        ensures within { IfSome result (λ place. place < length self.now.sessions) }
    {
        self.sessions.get_index_of(session)
    }

    /// Makes a session, last.
    fn make(&mut self, key: SessionKey, settings: Settings, now: u64) -> Result<(), OutOfMemory>
        ensures ok { OnOk result (self.new ≡ specs.named self.old key settings.0 now) }
        ensures err { OnErr result (self.new ≡ self.old) }
    {
        let session = Session {
            settings,
            last: now,
        };
        self.sessions.insert(key, session)?;
        Ok(())
    }

    /// Lends the settings of a session, where it is there. It takes no memory.
    pub fn settings(&self, session: &SessionKey) -> Option<&Settings>
        ensures { option_map (λ lent. lent.now) result ≡ option_map (λ s. s.settings) (specs.session_of self.now session.now) }
    {
        match self.sessions.get(session) {
            Some(session) => Some(&session.settings),
            None => None,
        }
    }

    /// How many sessions there are. It takes no memory.
    pub fn len(&self) -> usize
        ensures { result ≡ length self.now.sessions }
    {
        self.sessions.len()
    }

    /// The key and the last moment of the session at a place, in the order in which they were made. It takes no memory.
    pub fn at(&self, place: usize) -> (&SessionKey, u64)
        requires { place < length self.now.sessions }
        ensures key { option_map (λ entry. entry.0) (slice_get self.now.sessions place) ≡ Some result.0.now }
        ensures last { option_map (λ entry. entry.1.last) (slice_get self.now.sessions place) ≡ Some result.1 }
    {
        let (key, session) = self.sessions.get_index(place).unwrap();
        (key, session.last)
    }

    /// Removes the session at a place; those behind it move up. It takes no memory.
    pub fn remove(&mut self, place: usize)
        requires { place < length self.old.sessions }
        ensures limit { self.new.limit ≡ self.old.limit }
        ensures sessions { self.new.sessions ≡ remove self.old.sessions place }
    {
        self.sessions.shift_remove_index(place);
    }

    /// What an operation on the settings of a session answers. An accepted one makes the session where it isn't there, changes its settings
    /// and notes the moment `now`; a refused one changes nothing.
    pub fn config(
        &mut self,
        alloc: Global,
        session: SessionKey,
        operation: &ConfigOperation,
        now: u64,
    ) -> Result<List<Pair>, ConfigRefusal>
        ensures ok { IfOk result (λ pairs. specs.configured self.old session operation.now ≡ Ok pairs) }
        ensures refused { IfErr result (λ why. why ≢ ConfigRefusal.OutOfMemory → specs.configured self.old session operation.now ≡ Err why) }
        ensures changes { OnOk result (self.new ≡ specs.named self.old session (specs.settings_after self.old session operation.now) now) }
        ensures unchanged { OnErr result (self.new ≡ self.old) }
    {
        if !self.may_admit(&session) {
            return Err(ConfigRefusal::SessionLimit { limit: self.limit });
        }
        match self.place_of(&session) {
            Some(place) => self.config_at(alloc, place, operation, now),
            None => self.config_new(alloc, session, operation, now),
        }
    }

    /// The same of the session at a place, which is there.
    fn config_at(
        &mut self,
        alloc: Global,
        place: usize,
        operation: &ConfigOperation,
        now: u64,
    ) -> Result<List<Pair>, ConfigRefusal>
        requires { place < length self.old.sessions }
        ensures ok { IfOk result (λ pairs. config.answered (specs.settings_at self.old place) operation.now ≡ Ok pairs) }
        ensures refused { IfErr result (λ why. why ≢ ConfigRefusal.OutOfMemory → config.answered (specs.settings_at self.old place) operation.now ≡ Err why) }
        ensures changes { OnOk result (self.new ≡ specs.named_at self.old place (config.changed (specs.settings_at self.old place) operation.now) now) }
        ensures unchanged { OnErr result (self.new ≡ self.old) }
    {
        let settings = self.sessions[place].settings.0.as_slice();
        let answer = answered(alloc, settings, operation)?;
        let new = changed(alloc, settings, operation)?;
        self.note(place, new, now);
        Ok(answer)
    }

    /// Notes new settings of the session at a place, where there are any, and its last moment.
    fn note(&mut self, place: usize, new: Option<Settings>, now: u64)
        requires { place < length self.old.sessions }
        ensures { self.new ≡ specs.named_at self.old place (option_map_or (λ s. s.0) new (specs.settings_at self.old place)) now }
    {
        let session = &mut self.sessions[place];
        if let Some(new) = new {
            session.settings = new;
        }
        session.last = now;
    }

    /// The same of a new session.
    fn config_new(
        &mut self,
        alloc: Global,
        session: SessionKey,
        operation: &ConfigOperation,
        now: u64,
    ) -> Result<List<Pair>, ConfigRefusal>
        ensures ok { IfOk result (λ pairs. config.answered first_settings operation.now ≡ Ok pairs) }
        ensures refused { IfErr result (λ why. why ≢ ConfigRefusal.OutOfMemory → config.answered first_settings operation.now ≡ Err why) }
        ensures changes { OnOk result (self.new ≡ specs.named self.old session (config.changed first_settings operation.now) now) }
        ensures unchanged { OnErr result (self.new ≡ self.old) }
    {
        let first = presets(alloc)?;
        let answer = answered(alloc, first.0.as_slice(), operation)?;
        let settings = match changed(alloc, first.0.as_slice(), operation)? {
            Some(new) => new,
            None => first,
        };
        self.make(session, settings, now)?;
        Ok(answer)
    }
}

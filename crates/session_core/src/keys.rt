ghost use Rattle.std.specs.Prelude.{◌≡◌, ◌++◌, nat_eq, IfOk};
ghost use Rattle.std.specs.Hash as fed;
ghost use Rattle.std.specs.Cmp.Lexicographic.{pointwise};
ghost use Rattle.std.specs.Ordering.{on, eq_of_both};
ghost use Rattle.std.specs.Cmp.Rules.{comparing, hashing};
ghost use Rattle.std.proofs.Common.{rules};

use cn_base::{Copied, OutOfMemory, Text};
use std::alloc::Global;
use std::hash::{Hash, Hasher};

/// What a session is found by: its user and its id.
#[derive(Debug, Drop)]
pub struct SessionKey {
    pub user: Text,
    pub session: u128,
}

/// What an operation is found by: its user, its session's id and its own.
#[derive(Debug, Drop)]
pub struct Key {
    pub user: Text,
    pub session: u128,
    pub operation: u128,
}

/// The fields of requests that hold ids.
#[derive(Clone, Copy, Debug, PartialEq, Eq)]
pub enum HandleField {
    Session,
    Operation,
}

impl PartialEq for SessionKey {
    ghost eq = { eq_of_both (on (λ key. key.session) nat_eq) (on (λ key. key.user) (pointwise nat_eq)) };

    ghost laws = { Prim.search (comparing, rules) };

    fn eq(&self, other: &SessionKey) -> bool {
        self.session == other.session && self.user.as_str() == other.user.as_str()
    }
}

impl Eq for SessionKey {
    ghost laws = { Prim.search (comparing, rules) };
}

impl Hash for SessionKey {
    ghost hash_input = { λ key. fed.u128 key.session ++ fed.str key.user };

    ghost respects_eq = { Prim.search (hashing, rules) };

    fn hash<H: Hasher>(&self, state: &mut H) {
        self.session.hash(state);
        self.user.as_str().hash(state);
    }
}

impl Copied for SessionKey {
    fn copy(&self, alloc: Global) -> Result<SessionKey, OutOfMemory> {
        let user = self.user.copy(alloc)?;
        Ok(SessionKey {
            user,
            session: self.session,
        })
    }
}

use crate::{SessionKey, Sessions, parse_id};
use cn_base::{List, OutOfMemory, Text};
use request_messages::ConfigOperation;
use response_messages::KeyValue;
use std::alloc::Global;
use std::test::Fail;

fn key(alloc: Global) -> Result<SessionKey, OutOfMemory> {
    let user = Text::of(alloc, "u")?;
    Ok(SessionKey { user, session: 7 })
}

fn set(alloc: Global, key: &str, value: &str) -> Result<ConfigOperation, OutOfMemory> {
    let key = Text::of(alloc, key)?;
    let value = Some(Text::of(alloc, value)?);
    let mut pairs = List::new(alloc);
    pairs.push(KeyValue { key, value })?;
    Ok(ConfigOperation::Set { pairs })
}

fn keys(alloc: Global, key: &str) -> Result<List<Text>, OutOfMemory> {
    let mut keys = List::new(alloc);
    keys.push(Text::of(alloc, key)?)?;
    Ok(keys)
}

#[test]
fn an_id_is_read_in_either_case(rt: HostRuntime) -> Result<(), Fail> {
    let id = Some(0x1_8000_8000_0001_4000_000a);
    assert_eq!(rt; parse_id("00000000-0001-8000-8000-00014000000A"), id);
    assert_eq!(rt; parse_id("00000000-0001-8000-8000-00014000000a"), id);
    assert_eq!(rt; parse_id("0000000000018000800000014000000a"), None);
    Ok(())
}

#[test]
fn five_presets_and_what_was_set_are_answered(rt: HostRuntime) -> Result<(), Fail> {
    let alloc = rt.alloc();
    let mut sessions = Sessions::new(alloc, 1);
    sessions.config(alloc, key(alloc)?, &set(alloc, "a", "1")?, 3)?;
    let all = ConfigOperation::GetAll { prefix: None };
    let pairs = sessions.config(alloc, key(alloc)?, &all, 4)?;
    assert_eq!(rt; pairs.len(), 6);
    Ok(())
}

#[test]
fn an_unset_preset_is_there(rt: HostRuntime) -> Result<(), Fail> {
    let alloc = rt.alloc();
    let mut sessions = Sessions::new(alloc, 1);
    let name = "spark.sql.caseSensitive";
    sessions.config(alloc, key(alloc)?, &set(alloc, name, "true")?, 3)?;
    let unset = ConfigOperation::Unset {
        keys: keys(alloc, name)?,
    };
    let pairs = sessions.config(alloc, key(alloc)?, &unset, 4)?;
    assert_eq!(rt; pairs.len(), 0);
    let get = ConfigOperation::Get {
        keys: keys(alloc, name)?,
    };
    let pairs = sessions.config(alloc, key(alloc)?, &get, 5)?;
    assert_eq!(rt; pairs.len(), 1);
    Ok(())
}

#[test]
fn an_unknown_key_is_not_found(rt: HostRuntime) -> Result<(), Fail> {
    let alloc = rt.alloc();
    let mut sessions = Sessions::new(alloc, 1);
    let get = ConfigOperation::Get {
        keys: keys(alloc, "b")?,
    };
    let answer = sessions.config(alloc, key(alloc)?, &get, 5);
    assert!(rt; answer.is_err());
    assert_eq!(rt; sessions.len(), 0);
    Ok(())
}

#[test]
fn an_admitted_session_stands_at_its_place(rt: HostRuntime) -> Result<(), Fail> {
    let alloc = rt.alloc();
    let mut sessions = Sessions::new(alloc, 1);
    let session = key(alloc)?;
    assert!(rt; sessions.may_admit(&session));
    sessions.admit(alloc, &session, 9)?;
    assert_eq!(rt; sessions.len(), 1);
    assert!(rt; sessions.settings(&session).is_some());
    sessions.remove(0);
    assert_eq!(rt; sessions.len(), 0);
    Ok(())
}

// What a record after the head adds to a plan, and the checks that it must pass.
ghost use Rattle.std.specs.Prelude.{◌≡◌, ◌<◌, vec_len, OnOk};
ghost use Rattle.plans.specs.Faults.{head_form};
ghost use Rattle.plans.specs.Steps.{ActionAdded, Checked, ServerAdded};

use crate::kind::Kind;
use crate::numbered::has;
use crate::record::Record;
use crate::server::{Action, Server};
use limits::{Refusal, Task, check_cap, check_server};
use std::alloc::{AllocError, Global};

// What a record in order adds: a server without actions, or an action of the last server.
pub enum Entry {
    NewServer { number: u8, cap: u32 },
    NewAction(Action),
}

// Whether a record has the form of a head.
pub fn is_head(raw: &Record) -> bool
    ensures answer { result ≡ head_form raw.now }
{
    raw.kind == Kind::Head as u8
        && raw.number == 0
        && raw.zeros == 0
        && raw.second == 0
        && raw.third == 0
}

// The entry of a record that comes after those of `servers`, or the first check that it fails.
pub fn entry_of(servers: &[Server], raw: &Record) -> Result<Entry, Refusal>
    ensures answer { Checked servers.now raw.now result }
{
    if raw.zeros != 0 {
        return Err(Refusal::RecordForm);
    }
    match Kind::try_from(raw.kind)? {
        Kind::Head => Err(Refusal::RecordForm),
        Kind::Server => server_entry(servers, raw),
        Kind::Action => action_entry(servers, raw),
    }
}

fn server_entry(servers: &[Server], raw: &Record) -> Result<Entry, Refusal>
    requires { (raw.now.zeros ≡ 0) × (raw.now.kind ≡ 1) }
    ensures answer { Checked servers.now raw.now result }
{
    if raw.second != 0 || raw.third != 0 {
        return Err(Refusal::RecordForm);
    }
    check_server(raw.number)?;
    check_cap(raw.first)?;
    if has(servers, raw.number) {
        return Err(Refusal::NumberTwice);
    }
    Ok(Entry::NewServer {
        number: raw.number,
        cap: raw.first,
    })
}

#[tactic(auto, using(crate::proofs::Lasts::last_actions_lem))]
fn action_entry(servers: &[Server], raw: &Record) -> Result<Entry, Refusal>
    requires { (raw.now.zeros ≡ 0) × (raw.now.kind ≡ 2) }
    ensures answer { Checked servers.now raw.now result }
{
    if raw.number == 0 {
        return Err(Refusal::RecordForm);
    }
    let server = servers.last().ok_or(Refusal::ActionBeforeServer)?;
    let task = Task {
        load: raw.first,
        limit: raw.second,
        period: raw.third,
    };
    task.check()?;
    if has(server.actions.as_slice(), raw.number) {
        return Err(Refusal::NumberTwice);
    }
    Ok(Entry::NewAction(Action {
        number: raw.number,
        task,
    }))
}

// A server without actions at the end.
pub fn add_server(
    heap: Global,
    servers: &mut Vec<Server>,
    number: u8,
    cap: u32,
) -> Result<(), AllocError>
    ensures after { OnOk result (ServerAdded number «cap» servers.old.items servers.new.items) }
{
    servers.push(Server {
        number,
        cap,
        actions: Vec::new(heap),
    })?;
    Ok(())
}

// An action at the end of the last server's.
#[tactic(auto, using(crate::proofs::Lasts::action_added))]
pub fn add_action(servers: &mut Vec<Server>, action: Action) -> Result<(), AllocError>
    requires { 0 < vec_len servers.old }
    ensures after { OnOk result (ActionAdded action servers.old.items servers.new.items) }
{
    if let Some(server) = servers.last_mut() {
        server.actions.push(action)?;
    }
    Ok(())
}

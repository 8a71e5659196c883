// Reading a plan, and looking things up in it.
ghost use Rattle.std.specs.Prelude.{◌≡◌, ◌+◌, ◌*◌, ◌≤◌, true, false, length, MatchOption};
ghost use Rattle.plans.specs.Faults.{count_of, sized};
ghost use Rattle.plans.specs.Reads.{Read, Replaced, action_of, server_of, servers_of};
ghost use Rattle.plans.specs.Steps.{ReadServers, Took};
ghost use Rattle.std.specs.Option.{option_map};

use crate::entry::{Entry, add_action, add_server, entry_of, is_head};
use crate::fault::plan_fault;
use crate::numbered::find;
use crate::plan::Plan;
use crate::record::{RECORD_BYTES, Record, word_at};
use crate::server::{Action, Server};
use limits::{ReadError, Refusal};
use std::alloc::Global;

// The most records of a plan.
const MOST_RECORDS: usize = 1_024;

// The longest plan, in bytes: one byte more decides that bytes are no plan.
pub const MOST_PLAN_BYTES: u64 = 16_384;

// How many records the bytes have, if their size is that of a plan.
fn record_count(bytes: &[u8]) -> Option<usize>
    ensures answer { MatchOption result (sized bytes.now ≡ false) (λ n. (sized bytes.now ≡ true) × (n ≡ count_of bytes.now)) }
{
    if bytes.len() < RECORD_BYTES {
        return None;
    }
    let count = word_at(bytes, 4) as usize;
    if bytes.len() != RECORD_BYTES * count || count < 1 || count > MOST_RECORDS {
        return None;
    }
    Some(count)
}

// Takes in the record at `place`, the next after those that gave `servers`.
fn read_record(
    heap: Global,
    servers: &mut Vec<Server>,
    bytes: &[u8],
    place: usize,
) -> Result<(), ReadError>
    requires { 16 * place + 16 ≤ length bytes.now }
    ensures answer { Took bytes.now place servers.old.items servers.new.items result }
{
    let raw = Record::at(bytes, place);
    match entry_of(servers.as_slice(), &raw).map_err(|refusal| plan_fault(refusal, place))? {
        Entry::NewServer { number, cap } => add_server(heap, servers, number, cap)?,
        Entry::NewAction(action) => add_action(servers, action)?,
    }
    Ok(())
}

// The servers of the first `count` records.
#[tactic(auto, using(crate::proofs::Reading::head_fault, crate::proofs::Reading::reading_more, crate::proofs::Reading::sized_parts))]
fn read_servers(heap: Global, bytes: &[u8], count: usize) -> Result<Vec<Server>, ReadError>
    requires { (sized bytes.now ≡ true) × (count ≡ count_of bytes.now) }
    ensures answer { ReadServers bytes.now result }
{
    if !is_head(&Record::at(bytes, 0)) {
        return Err(plan_fault(Refusal::RecordForm, 0).into());
    }
    let mut servers = Vec::new(heap);
    for place in 1..count {
        read_record(heap, &mut servers, bytes, place)?;
    }
    Ok(servers)
}

impl Plan {
    // The plan that the bytes are the encoding of, or the first fault that they have.
    #[tactic(auto, using(crate::proofs::NoFault::not_in_order, crate::proofs::NoFault::not_sized))]
    pub fn read(heap: Global, bytes: &[u8]) -> Result<Plan, ReadError>
        ensures answer { Read bytes.now result }
    {
        let count = record_count(bytes).ok_or(plan_fault(Refusal::PlanSize, 0))?;
        let servers = read_servers(heap, bytes, count)?;
        Ok(Plan { servers })
    }

    // Puts the plan that the bytes encode in the place of this one, which stands as it was where they are no plan.
    pub fn replace(&mut self, heap: Global, bytes: &[u8]) -> Result<(), ReadError>
        ensures after { Replaced bytes.now self.old self.new result }
    {
        *self = Plan::read(heap, bytes)?;
        Ok(())
    }

    // The servers, in plan order.
    pub fn servers(&self) -> &[Server]
        ensures answer { result.now ≡ servers_of self.now }
    {
        self.servers.as_slice()
    }

    // The server of that number, if the plan has one.
    pub fn server(&self, number: u8) -> Option<&Server>
        ensures answer { option_map (λ x. x.now) result ≡ server_of self.now number }
    {
        find(self.servers.as_slice(), number)
    }

    // The action of that number of the server of that number, if the plan has both.
    pub fn action(&self, server: u8, number: u8) -> Option<&Action>
        ensures answer { option_map (λ x. x.now) result ≡ action_of self.now server number }
    {
        let server = self.server(server)?;
        find(server.actions.as_slice(), number)
    }
}

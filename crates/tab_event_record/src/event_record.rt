//! Events as a history keeps them.
ghost use Rattle.std.specs.Prelude.{◌≡◌, ◌↔◌, ◌<◌, ◌^◌, length, IsTrue, IfOk, Some};
ghost use Rattle.tab_key.specs.Names.{IsName};
ghost use Rattle.tab_wire.specs.declared.request.Request.TheVariants as Request;
ghost use Rattle.tab_wire.specs.Requests.{request_in};
ghost use Rattle.tab_event_record.specs.Records.{act_in, is_write, begins_write, body_bytes};

use crate::fitting::act_fits;
use crate::reading::read_act;
use crate::spelling::{body_of, bytes_fit};
use std::alloc::{AllocError, Global};
use std::marker::Model;
use tab_history::{Act, Event};
use tab_key::{ByteString, Name};
use tab_mutation::Mutation;

/// An event as a history keeps it: its user, its moment, and the body that spells its act. A contract sees the event.
pub struct EventRecord {
    user: ByteString,
    moment: i64,
    body: ByteString,
}

// Written out, so that a crate above needn't prove anew how the parts are dropped.
impl Drop for EventRecord {
    fn drop(self) {
        let EventRecord {
            user: _,
            moment: _,
            body: _,
        } = self;
    }
}

impl Model for EventRecord {
    ghost use Rattle.tab_history.specs.declared.event.Event.{Event};
    ghost use Rattle.tab_event_record.specs.EventRecords.{event_in, IsRecord};

    ghost Value = { Event };

    ghost view = { event_in };

    ghost invariant = { IsRecord };
}

impl EventRecord {
    /// The event of what the user asks at the moment, kept. An error leaves nothing behind.
    pub fn of(alloc: Global, user: &Name, moment: i64, act: &Act) -> Result<EventRecord, AllocError>
        ensures { IfOk result (λ event_record. event_record ≡ record { user = user.now; moment = moment; act = act.now }) }
    {
        act_fits(act);
        let body = body_of(alloc, act)?;
        let user = ByteString::from_slice(alloc, user.as_bytes())?;
        Ok(EventRecord { user, moment, body })
    }

    /// The event of what the user asks at the moment by a frame of this body, kept. A Write's body is copied as it came; any other act is
    /// written anew, since a frame may spell it in several ways.
    pub fn of_asked(
        alloc: Global,
        user: &Name,
        moment: i64,
        act: &Act,
        body: &[u8],
    ) -> Result<EventRecord, AllocError>
        requires { request_in body.now ≡ Some (Request.Act act.now) }
        ensures { IfOk result (λ event_record. event_record ≡ record { user = user.now; moment = moment; act = act.now }) }
    {
        match act {
            Act::Write(table, mutation) if body.len() <= 0xffff_ffff => {
                EventRecord::of_write(alloc, user, moment, table, mutation, body)
            }
            _ => EventRecord::of(alloc, user, moment, act),
        }
    }

    // A Write that a frame of this body asked.
    fn of_write(
        alloc: Global,
        user: &Name,
        moment: i64,
        _table: &Name,
        _mutation: &Mutation,
        body: &[u8],
    ) -> Result<EventRecord, AllocError>
        requires asked { request_in body.now ≡ Some (Request.Act (Act.Write _table.now _mutation.now)) }
        requires short { length body.now < 2 ^ 32 }
        ensures { IfOk result (λ event_record. event_record ≡ record { user = user.now; moment = moment; act = Act.Write _table.now _mutation.now }) }
    {
        bytes_fit(body);
        let body = ByteString::from_slice(alloc, body)?;
        let user = ByteString::from_slice(alloc, user.as_bytes())?;
        Ok(EventRecord { user, moment, body })
    }

    /// The event itself, in memory of its own. An error leaves nothing behind.
    pub fn to_event(&self, alloc: Global) -> Result<Event, AllocError>
        ensures { IfOk result (λ event. event ≡ self.now) }
    {
        let act = read_act(alloc, self.body.as_bytes())?;
        Ok(Event {
            user: Name::new(self.user.as_bytes()).unwrap(),
            moment: self.moment,
            act: act.unwrap(),
        })
    }

    /// The caller.
    pub fn user(&self) -> &[u8]
        ensures value { result.now ≡ self.now.user }
        ensures valid { IsName self.now.user }
    {
        self.user.as_bytes()
    }

    /// The moment that the caller handed in.
    pub fn moment(&self) -> i64
        ensures { result ≡ self.now.moment }
    {
        self.moment
    }

    /// The body: how the act is written.
    pub fn body(&self) -> &[u8]
        ensures read { act_in result.now ≡ Some self.now.act }
        ensures written { result.now ≡ body_bytes self.now.act }
        ensures short { length result.now < 2 ^ 32 }
    {
        self.body.as_bytes()
    }

    /// Whether it is a Write.
    pub fn is_write(&self) -> bool
        ensures { result ≡ is_write self.now.act }
    {
        begins_write(self.body.as_bytes())
    }

    /// Whether the two are one event: one user, one moment, and the same bytes.
    pub fn same(&self, other: &EventRecord) -> bool
        ensures { IsTrue result ↔ (self.now ≡ other.now) }
    {
        self.user == other.user && self.moment == other.moment && self.body == other.body
    }
}

// Whether the body begins as that of a Write.
fn begins_write(body: &[u8]) -> bool
    ensures { result ≡ begins_write body.now }
{
    match body {
        [0x0a, ..] => true,
        _ => false,
    }
}

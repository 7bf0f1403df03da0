//! Memory for an entry.
ghost use Rattle.std.specs.Prelude.{◌≡◌, IfOk, Some};
ghost use Rattle.tab_wire.specs.declared.request.Request.TheVariants as Request;
ghost use Rattle.tab_wire.specs.Requests.{request_in};
ghost use Rattle.std.specs.Arc.{arc_value};
ghost use Rattle.tab_core.specs.Stepping.{asked_at};

use std::alloc::{AllocError, Global};
use std::marker::Model;
use std::sync::Arc;
use tab_core::EventReply;
use tab_event_record::EventRecord;
use tab_history::{Act, Event};
use tab_key::Name;

/// The memory that an event's entry takes, with the event in it. Where a book is shared it's found before the book is locked.
#[derive(Drop)]
pub struct Reservation {
    // for the book and for the receipt
    event: Arc<EventRecord>,
    copy: Arc<EventRecord>,
    // where a reply lies that takes a place of its own
    place: Box<EventReply>,
}

impl Model for Reservation {
    ghost use Rattle.std.specs.Prelude.{◌≡◌};
    ghost use Rattle.std.specs.Arc.{arc_value};
    ghost use Rattle.tab_history.specs.declared.event.Event.{Event};

    ghost Value = { Event };

    ghost view = { λ r. arc_value r.event };

    ghost invariant = { λ r. arc_value r.copy ≡ arc_value r.event };
}

impl Reservation {
    /// Finds the memory for an event. An error leaves nothing behind.
    pub fn of(alloc: Global, event: &Event) -> Result<Reservation, AllocError>
        ensures { IfOk result (λ reserved. reserved ≡ event.now) }
    {
        Reservation::of_lent(alloc, &event.user, event.moment, &event.act)
    }

    /// Finds the memory for what the user asks at the moment, an event whose parts are lent.
    pub fn of_lent(
        alloc: Global,
        user: &Name,
        moment: i64,
        act: &Act,
    ) -> Result<Reservation, AllocError>
        ensures { IfOk result (λ reserved. reserved ≡ asked_at user.now moment act.now) }
    {
        Reservation::over(alloc, EventRecord::of(alloc, user, moment, act)?)
    }

    /// Finds the memory for what the user asks at the moment by a frame of this body. A Write's body is copied as it came.
    pub fn of_asked(
        alloc: Global,
        user: &Name,
        moment: i64,
        act: &Act,
        body: &[u8],
    ) -> Result<Reservation, AllocError>
        requires { request_in body.now ≡ Some (Request.Act act.now) }
        ensures { IfOk result (λ reserved. reserved ≡ asked_at user.now moment act.now) }
    {
        Reservation::over(
            alloc,
            EventRecord::of_asked(alloc, user, moment, act, body)?,
        )
    }

    // The memory for this event.
    fn over(alloc: Global, event_record: EventRecord) -> Result<Reservation, AllocError>
        ensures { IfOk result (λ reserved. reserved ≡ event_record) }
    {
        let Ok(first) = Arc::new(alloc, event_record) else {
            return Err(AllocError);
        };
        let copy = Arc::try_clone(&first)?;
        let Ok(place) = Box::new(alloc, EventReply::Done) else {
            return Err(AllocError);
        };
        Ok(Reservation {
            event: first,
            copy,
            place,
        })
    }

    // The event, for the book and for the receipt, and the place of a reply.
    pub(crate) fn into_parts(self) -> (Arc<EventRecord>, Arc<EventRecord>, Box<EventReply>)
        ensures event { arc_value result.0 ≡ self }
        ensures copy { arc_value result.1 ≡ self }
    {
        let Reservation { event, copy, place } = self;
        (event, copy, place)
    }
}

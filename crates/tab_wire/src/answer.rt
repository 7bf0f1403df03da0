//! What one request is answered: of one frame, or of a list of them.
ghost use Rattle.std.specs.Prelude.{◌≡◌, ◌&&◌};
ghost use Rattle.tab_wire.specs.Answering.{SoFar, listed, none_so_far, is_empty, ended, alone, comes, Says};

use crate::client::ReceiveFault;
use crate::reason::Reason;
use crate::reply_frame::ReplyFrame;
use std::alloc::Global;
use std::mem;
use tab_history::Reply;
use tab_key::{ByteString, Cells, Items, Record};

/// What one request is answered.
#[derive(Drop)]
pub enum Answer {
    /// The reply. A session is told by its number. A list without end rows and ranges is a batch: one of no cells is also the reply of
    /// no end rows and of no ranges.
    Reply(Reply<u32>),
    /// The frame asked nothing, for this reason.
    BadFrame(Reason),
}

/// What the frames of one reply told so far.
#[derive(Drop)]
pub struct ReplySoFar {
    alloc: Global,
    cells: Cells,
    ranges: Vec<Cells>,
    rows: Vec<ByteString>,
}

impl ReplySoFar {
    /// Nothing was told yet.
    pub fn new(alloc: Global) -> ReplySoFar
        ensures { listed result ≡ none_so_far }
    {
        ReplySoFar {
            alloc,
            cells: Cells::new(alloc),
            ranges: Vec::new(alloc),
            rows: Vec::new(alloc),
        }
    }

    /// Goes on by the next frame. The answer, where that ends it.
    pub fn add(&mut self, told: ReplyFrame) -> Result<Option<Answer>, ReceiveFault>
        ensures { Says (comes (listed self.old) told) result (listed self.new) }
    {
        match told {
            ReplyFrame::Cell(record) => self.add_cell(record),
            ReplyFrame::RangeEnd => self.end_range(),
            ReplyFrame::Row(row) => self.add_row(row),
            ReplyFrame::End => self.end(),
            _ if self.is_empty() => alone(told),
            _ => Err(ReceiveFault::Bad),
        }
    }

    fn is_empty(&self) -> bool
        ensures { result ≡ (is_empty self.now.cells && (is_empty self.now.ranges.items && is_empty self.now.rows.items)) }
    {
        self.cells.is_empty() && (self.ranges.is_empty() && self.rows.is_empty())
    }

    fn add_cell(&mut self, shown: Record) -> Result<Option<Answer>, ReceiveFault>
        ensures { Says (comes (listed self.old) (ReplyFrame.Cell shown)) result (listed self.new) }
    {
        if !self.rows.is_empty() {
            return Err(ReceiveFault::Bad);
        }
        self.cells.push(&shown.as_ref())?;
        Ok(None)
    }

    fn end_range(&mut self) -> Result<Option<Answer>, ReceiveFault>
        ensures { Says (comes (listed self.old) ReplyFrame.RangeEnd) result (listed self.new) }
    {
        if !self.rows.is_empty() {
            return Err(ReceiveFault::Bad);
        }
        self.ranges.reserve(1)?;
        let cells = mem::replace(&mut self.cells, Cells::new(self.alloc));
        self.ranges.push_reserved(cells);
        Ok(None)
    }

    fn add_row(&mut self, row: ByteString) -> Result<Option<Answer>, ReceiveFault>
        ensures { Says (comes (listed self.old) (ReplyFrame.Row row)) result (listed self.new) }
    {
        if !self.cells.is_empty() || !self.ranges.is_empty() {
            return Err(ReceiveFault::Bad);
        }
        self.rows.push(row)?;
        Ok(None)
    }

    // The whole list. Cells behind the last range are in none.
    fn end(&mut self) -> Result<Option<Answer>, ReceiveFault>
        ensures { Says (ended (listed self.old)) result (listed self.new) }
    {
        let cells = mem::replace(&mut self.cells, Cells::new(self.alloc));
        let ranges = mem::replace(&mut self.ranges, Vec::new(self.alloc));
        let rows = mem::replace(&mut self.rows, Vec::new(self.alloc));
        if !rows.is_empty() {
            return Ok(Some(Answer::Reply(Reply::Rows(Items::from_vec(rows)))));
        }
        if ranges.is_empty() {
            return Ok(Some(Answer::Reply(Reply::Batch(cells))));
        }
        if !cells.is_empty() {
            return Err(ReceiveFault::Bad);
        }
        Ok(Some(Answer::Reply(Reply::Ranges(Items::from_vec(ranges)))))
    }
}

// The answer of one frame.
fn alone(told: ReplyFrame) -> Result<Option<Answer>, ReceiveFault>
    ensures { (s : SoFar) → Says (alone told) result s }
{
    match told {
        ReplyFrame::Done => Ok(Some(Answer::Reply(Reply::Done))),
        ReplyFrame::Refused(refusal) => Ok(Some(Answer::Reply(Reply::Refused(refusal)))),
        ReplyFrame::BadFrame(reason) => Ok(Some(Answer::BadFrame(reason))),
        ReplyFrame::Opened(number) => Ok(Some(Answer::Reply(Reply::Opened(number)))),
        ReplyFrame::Counted(counts) => Ok(Some(Answer::Reply(Reply::Counted(counts)))),
        ReplyFrame::Rights(rights) => Ok(Some(Answer::Reply(Reply::Rights(rights)))),
        _ => Err(ReceiveFault::Bad),
    }
}

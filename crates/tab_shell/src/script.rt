//! Scripts: a core that answers lines.
ghost use Rattle.std.specs.Prelude.{◌≡◌, ◌<◌, ◌^◌, ◌++◌, ℕ, List, [], length, true, false, is_some, IfOk, IfErr, OnOk};
ghost use Rattle.tab_history.specs.Answers.{is_open};
ghost use Rattle.tab_io.specs.Streams.{FailsByFault};
ghost use Rattle.tab_policy.specs.Roots.{root};
ghost use Rattle.tab_shell.specs.Scripts.{new_script, replaced, IsInside};
ghost use Rattle.tab_shell.specs.Ahead.{Pends, ReadsLine, ReadsScan, scan_line, TakesLine, IsLineEnd, OpensNoSession};
ghost use Rattle.tab_shell.specs.Progress.{PrintsAnswer, AnswersOrAccepts, AnswersRead, AnswersFront, IsEmptied, EndsAhead, StopsAhead, FailedSide, RunsScript, ComesFurther};

use crate::file_lines::{file_act, hand_back, is_done, printed, taken};
use crate::pending::{Pending, line_end, take_part};
use crate::scans::{open_numbered, scan_now, write_refused};
use std::alloc::Global;
use std::marker::Model;
use tab_core::{Core, JobSlots, Sessions};
use tab_history::{Act, Refusal, Scan};
use tab_io::{Input, Output, WriteFault};
use tab_key::{Bounds, Items, Name};
use tab_lines::{FileLine, Line, ParseError, Words, read_line, read_scan, words_of_scan};
use tab_replies::{put_begun, put_next, write_reply};

/// How a run of a script ended.
#[derive(Drop)]
pub enum Ended {
    /// The input ended, and every line of it was answered. Nothing is left to read, and nothing is held unwritten.
    Input,
    /// The run came to this `save` or `load`, which the core accepted: its user may do it. The lines before it were answered, and
    /// nothing of those behind it is read away. What is to be done with the file, and the line's reply, is the caller's; nothing
    /// is held unwritten. The next run goes on behind the line.
    File(FileLine),
}

/// What stopped a script. The lines answered before it have taken effect.
#[derive(Clone, Copy, Debug, PartialEq, Eq, thiserror::Error)]
pub enum ScriptFault {
    /// The reader failed. Every line that ended before has been answered, and the answers are written; a line that had begun is
    /// dropped, without effect.
    #[error("the input can't be read")]
    Read,
    /// The writer failed. The lines that were taken have been answered, and a beginning of the answers is written.
    #[error("the output can't be written")]
    Write,
}

/// A core, who asks it, the sessions that its lines opened for each user, and the jobs that they began.
///
/// Lines are asked by one user at one moment, `root` at 0 until a line says otherwise. A line may name a user who isn't there:
/// what he then asks is refused. Each user's open lines number their sessions from 0; a closed number isn't given again. A scan's
/// session has no number. The jobs of all users are numbered from 0 in one row.
#[derive(Drop)]
pub struct Script {
    alloc: Global,
    core: Core,
    user: Name,
    moment: i64,
    sessions: Sessions,
    jobs: JobSlots,
}

impl Model for Script {
    ghost use Rattle.tab_shell.specs.Scripts.{ScriptState};

    ghost Value = { ScriptState };

    ghost view = { λ s. record { core = s.core; asker = record { user = s.user; moment = s.moment }; kept = s.sessions; jobs = s.jobs } };
}

// `root`, the user that is there from the first.
fn root_name() -> Name
    ensures { result ≡ root }
{
    Name::new(b"root").unwrap()
}

impl Script {
    /// A script over this core. `root` asks at moment 0.
    pub fn new(alloc: Global, core: Core) -> Script
        ensures { result ≡ new_script core }
    {
        Script {
            alloc,
            core,
            user: root_name(),
            moment: 0,
            sessions: Sessions::new(alloc),
            jobs: JobSlots::new(alloc),
        }
    }

    /// The core as it stands.
    pub fn core(&self) -> &Core
        ensures { result.now ≡ self.now.core }
    {
        &self.core
    }

    /// The core, without the script: its sessions and jobs are dropped.
    pub fn into_core(self) -> Core
        ensures { result ≡ self.core }
    {
        let Script { core, .. } = self;
        core
    }

    /// Puts this core in place of the script's. Its sessions and jobs are dropped, and their numbers begin anew; who asks, and when, stays.
    pub fn replace(&mut self, core: Core)
        ensures { self.new ≡ replaced self.old core }
    {
        self.core = core;
        self.sessions = Sessions::new(self.alloc);
        self.jobs = JobSlots::new(self.alloc);
    }

    // Does what the line says that ends in this part, and prints the replies. A file line that the core accepts is handed back.
    fn answer<W: Output>(
        &mut self,
        pending: &mut Pending,
        part: &[u8],
        output: &mut W,
    ) -> Result<Option<FileLine>, WriteFault>
        requires { IsInside part.now }
        ensures { AnswersRead W.Output self.old (λ said. (gone : List ℕ) → Pends pending.old gone → ReadsLine said (gone ++ part.now)) self.new output.old output.new result }
    {
        if pending.has_begun() {
            pending.add(part);
            return self.answer_pending(pending, output);
        }
        self.answer_text(part, output)
    }

    // `answer` for a line that is gathered whole.
    fn answer_pending<W: Output>(
        &mut self,
        pending: &Pending,
        output: &mut W,
    ) -> Result<Option<FileLine>, WriteFault>
        ensures { AnswersRead W.Output self.old (λ said. (gone : List ℕ) → Pends pending.now gone → ReadsLine said gone) self.new output.old output.new result }
    {
        match pending.text() {
            Some(text) => self.answer_text(text, output),
            None => printed(self.lacks_memory(output)),
        }
    }

    // `answer` for a line that is here whole.
    fn answer_text<W: Output>(
        &mut self,
        text: &[u8],
        output: &mut W,
    ) -> Result<Option<FileLine>, WriteFault>
        ensures { AnswersRead W.Output self.old (λ said. ReadsLine said text.now) self.new output.old output.new result }
    {
        match words_of_scan(text) {
            Some(words) => self.answer_scan(words, output),
            None => self.answer_other(text, output),
        }
    }

    // `answer` for a whole scan, of which these words are left. It is read into no room for what other lines say.
    #[inline(never)]
    fn answer_scan<W: Output>(
        &mut self,
        mut words: Words<'_>,
        output: &mut W,
    ) -> Result<Option<FileLine>, WriteFault>
        ensures { AnswersRead W.Output self.old (λ said. ReadsScan said words.entry) self.new output.old output.new result }
    {
        self.answer_asked(&mut read_scan(self.alloc, &mut words), output)
    }

    // `answer` for what was read of a whole scan.
    fn answer_asked<W: Output>(
        &mut self,
        asked: &mut Result<Scan, ParseError>,
        output: &mut W,
    ) -> Result<Option<FileLine>, WriteFault>
        ensures { AnswersOrAccepts W.Output self.old (scan_line asked.old) self.new output.old output.new result }
    {
        match asked {
            Ok(scan) => printed(self.scan(scan, output)),
            Err(ParseError::Malformed) => printed(self.faults(output)),
            Err(ParseError::NoMemory) => printed(self.lacks_memory(output)),
        }
    }

    // `answer` for any line.
    #[inline(never)]
    fn answer_other<W: Output>(
        &mut self,
        text: &[u8],
        output: &mut W,
    ) -> Result<Option<FileLine>, WriteFault>
        ensures { AnswersRead W.Output self.old (λ said. ReadsLine said text.now) self.new output.old output.new result }
    {
        self.answer_read(&mut read_line(self.alloc, text), output)
    }

    // `answer` for what was read of any line.
    fn answer_read<W: Output>(
        &mut self,
        said: &mut Result<Line, ParseError>,
        output: &mut W,
    ) -> Result<Option<FileLine>, WriteFault>
        requires { OpensNoSession said.old }
        ensures { AnswersOrAccepts W.Output self.old said.old self.new output.old output.new result }
    {
        match said {
            Ok(line) => self.does(line, output),
            Err(ParseError::Malformed) => printed(self.faults(output)),
            Err(ParseError::NoMemory) => printed(self.lacks_memory(output)),
        }
    }

    // `answer` for a line of the grammar.
    fn does<W: Output>(
        &mut self,
        line: &mut Line,
        output: &mut W,
    ) -> Result<Option<FileLine>, WriteFault>
        requires { OpensNoSession (Ok line.old) }
        ensures { AnswersOrAccepts W.Output self.old (Ok line.old) self.new output.old output.new result }
    {
        match line {
            Line::Blank => printed(self.says_nothing(output)),
            Line::As(user) => printed(self.sets_user(user, output)),
            Line::At(moment) => printed(self.sets_moment(*moment, output)),
            Line::Act(act) => printed(self.act(act, output)),
            Line::Scan(scan) => printed(self.scan(scan, output)),
            Line::Open(scan) => printed(self.open(scan, output)),
            Line::Next(number, count) => printed(self.next(*number, *count, output)),
            Line::Many(number, ranges) => printed(self.many(*number, ranges, output)),
            Line::Close(number) => printed(self.close(*number, output)),
            Line::Merge(job) => printed(self.merge(*job, output)),
            Line::File(file) => self.file(file, output),
        }
    }

    // Asks the core whether what the file line says may be done. A refusal is printed.
    fn file<W: Output>(
        &mut self,
        file: &mut FileLine,
        output: &mut W,
    ) -> Result<Option<FileLine>, WriteFault>
        ensures { AnswersOrAccepts W.Output self.old (Ok (Line.File file.old)) self.new output.old output.new result }
    {
        let mut act = file_act(file.kind);
        let answer = self.jobs.step(
            self.alloc,
            &mut self.core,
            &self.user,
            self.moment,
            &mut act,
        );
        if is_done(&answer) {
            return hand_back(taken(self.alloc, file), output);
        }
        printed(write_reply(output, &answer))
    }

    #[tactic(auto, using(crate::proofs::Saying::blank_prints))]
    fn says_nothing<W: Output>(&mut self, output: &mut W) -> Result<(), WriteFault>
        ensures { PrintsAnswer W.Output self.old (Ok Line.Blank) self.new output.old output.new result }
    {
        Ok(())
    }

    fn sets_user<W: Output>(&mut self, user: &Name, output: &mut W) -> Result<(), WriteFault>
        ensures { PrintsAnswer W.Output self.old (Ok (Line.As user.now)) self.new output.old output.new result }
    {
        self.user = *user;
        Ok(())
    }

    #[tactic(auto, using(crate::proofs::Saying::moment_prints))]
    fn sets_moment<W: Output>(&mut self, moment: i64, output: &mut W) -> Result<(), WriteFault>
        ensures { PrintsAnswer W.Output self.old (Ok (Line.At moment)) self.new output.old output.new result }
    {
        self.moment = moment;
        Ok(())
    }

    #[tactic(auto, using(tab_io::proofs::Putting::puts, crate::proofs::Saying::fault_prints))]
    fn faults<W: Output>(&mut self, output: &mut W) -> Result<(), WriteFault>
        ensures { PrintsAnswer W.Output self.old (Err ParseError.Malformed) self.new output.old output.new result }
    {
        output.put(b"line fault\n")
    }

    #[tactic(auto, using(tab_io::proofs::Putting::puts, crate::proofs::Saying::memory_prints))]
    fn lacks_memory<W: Output>(&mut self, output: &mut W) -> Result<(), WriteFault>
        ensures { PrintsAnswer W.Output self.old (Err ParseError.NoMemory) self.new output.old output.new result }
    {
        output.put(b"refused 17 NoMemory\n")
    }

    // One step of the core. A job that it begins is kept under the next number, and the merge that it installs is taken from its slot.
    fn act<W: Output>(&mut self, act: &mut Act, output: &mut W) -> Result<(), WriteFault>
        requires { is_open act.old ≡ false }
        ensures { PrintsAnswer W.Output self.old (Ok (Line.Act act.old)) self.new output.old output.new result }
    {
        let number = self.jobs.begun();
        let reply = self
            .jobs
            .step(self.alloc, &mut self.core, &self.user, self.moment, act);
        put_begun(output, number, &reply)
    }

    // Opens a session, and reads it at once.
    fn scan<W: Output>(&mut self, scan: &mut Scan, output: &mut W) -> Result<(), WriteFault>
        ensures { PrintsAnswer W.Output self.old (Ok (Line.Scan scan.old)) self.new output.old output.new result }
    {
        match self.sessions.get_mut(&self.user) {
            Some(kept) => scan_now(
                self.alloc,
                &mut self.core,
                kept,
                &self.user,
                self.moment,
                scan,
                output,
            ),
            None => self.first_scan(scan, output),
        }
    }

    // `scan` where nothing is kept for the user yet.
    #[inline(never)]
    fn first_scan<W: Output>(&mut self, scan: &mut Scan, output: &mut W) -> Result<(), WriteFault>
        ensures { PrintsAnswer W.Output self.old (Ok (Line.Scan scan.old)) self.new output.old output.new result }
    {
        match self.sessions.kept_for(self.alloc, &self.user) {
            Some(kept) => scan_now(
                self.alloc,
                &mut self.core,
                kept,
                &self.user,
                self.moment,
                scan,
                output,
            ),
            None => write_refused(output, Refusal::NoMemory),
        }
    }

    // Opens a session and keeps it.
    fn open<W: Output>(&mut self, scan: &mut Scan, output: &mut W) -> Result<(), WriteFault>
        ensures { PrintsAnswer W.Output self.old (Ok (Line.Open scan.old)) self.new output.old output.new result }
    {
        match self.sessions.kept_for(self.alloc, &self.user) {
            Some(kept) => open_numbered(
                self.alloc,
                &mut self.core,
                kept,
                &self.user,
                self.moment,
                scan,
                output,
            ),
            None => write_refused(output, Refusal::NoMemory),
        }
    }

    fn next<W: Output>(&mut self, number: u32, count: u32, output: &mut W) -> Result<(), WriteFault>
        ensures { PrintsAnswer W.Output self.old (Ok (Line.Next number count)) self.new output.old output.new result }
    {
        let reply = self.sessions.next(self.alloc, &self.user, number, count);
        put_next(output, count, &reply)
    }

    fn many<W: Output>(
        &mut self,
        number: u32,
        ranges: &Items<Bounds>,
        output: &mut W,
    ) -> Result<(), WriteFault>
        ensures { PrintsAnswer W.Output self.old (Ok (Line.Many number ranges.now)) self.new output.old output.new result }
    {
        let reply = self
            .sessions
            .many(self.alloc, &self.user, number, ranges.as_slice());
        write_reply(output, &reply)
    }

    fn close<W: Output>(&mut self, number: u32, output: &mut W) -> Result<(), WriteFault>
        ensures { PrintsAnswer W.Output self.old (Ok (Line.Close number)) self.new output.old output.new result }
    {
        let reply = self.sessions.close(&self.user, number);
        write_reply(output, &reply)
    }

    // Makes the merge of a job, which stays in its slot.
    fn merge<W: Output>(&mut self, job: u64, output: &mut W) -> Result<(), WriteFault>
        ensures { PrintsAnswer W.Output self.old (Ok (Line.Merge job)) self.new output.old output.new result }
    {
        let reply = self.jobs.merge(self.alloc, job);
        write_reply(output, &reply)
    }

    // Answers the lines that the front has, up to a file line that the core accepts.
    #[tactic(auto, using(crate::proofs::ProgressLemmas::goes_none, crate::proofs::ProgressLemmas::goes_on))]
    fn answer_front<R: Input, W: Output>(
        &mut self,
        pending: &mut Pending,
        input: &mut R,
        output: &mut W,
    ) -> Result<Option<FileLine>, WriteFault>
        ensures front { IfOk result (λ file. IsEmptied file (R.front input.old) (R.front input.new)) }
        ensures lines { AnswersFront W.Output self.old (R.remaining input.old) pending.old output.old self.new (R.remaining input.new) pending.new output.new result }
        ensures reads { (R.faults input.new ≡ R.faults input.old) × (R.budget input.new ≡ R.budget input.old) }
        ensures writes { FailsByFault result (W.faults output.old) (W.faults output.new) (W.budget output.new) }
    {
        while let Some(at) = line_end(input.front()) {
            match self.answer_line(pending, input, at, output) {
                Ok(None) => {}
                Ok(Some(file)) => return Ok(Some(file)),
                Err(fault) => return Err(fault),
            }
        }
        take_part(input, pending);
        Ok(None)
    }

    // Answers the line that ends at this place of the front, and takes it.
    fn answer_line<R: Input, W: Output>(
        &mut self,
        pending: &mut Pending,
        input: &mut R,
        at: usize,
        output: &mut W,
    ) -> Result<Option<FileLine>, WriteFault>
        requires { IsLineEnd (R.front input.old) at }
        ensures lines { AnswersRead W.Output self.old (λ said. TakesLine (R.remaining input.old) pending.old said (R.remaining input.new) pending.new) self.new output.old output.new result }
        ensures shorter { length (R.front input.new) < length (R.front input.old) }
        ensures fits { length (R.front input.old) < 2 ^ 64 }
        ensures reads { (R.faults input.new ≡ R.faults input.old) × (R.budget input.new ≡ R.budget input.old) }
    {
        let answered = self.answer(pending, input.front().split_at(at).0, output);
        pending.clear();
        input.consume(at + 1);
        answered
    }

    // Answers all lines that end, and ends with no byte in the front and none gathered; or up to a file line that the core accepts.
    #[tactic(auto, using(crate::proofs::ProgressLemmas::goes_none))]
    fn answer_all<R: Input, W: Output>(
        &mut self,
        pending: &mut Pending,
        input: &mut R,
        output: &mut W,
    ) -> Result<Option<FileLine>, ScriptFault>
        ensures ok { IfOk result (λ file. EndsAhead W.Output file self.old (R.remaining input.old) pending.old output.old self.new (R.remaining input.new) pending.new output.new) }
        ensures err { IfErr result (λ e. StopsAhead W.Output e self.old (R.remaining input.old) pending.old output.old self.new (R.remaining input.new) pending.new output.new) }
        ensures faults { IfErr result (λ e. FailedSide R.Input W.Output e input.old input.new output.old output.new) }
        ensures further { OnOk result (ComesFurther R.Input input.old input.new) }
        ensures writes { OnOk result (W.faults output.new ≡ W.faults output.old) }
    {
        loop {
            match self.answer_front(pending, input, output) {
                Ok(None) => {}
                Ok(Some(accepted)) => return Ok(Some(accepted)),
                Err(_) => return Err(ScriptFault::Write),
            }
            match output.flush() {
                Ok(()) => {}
                Err(_) => return Err(ScriptFault::Write),
            }
            match input.fill() {
                Ok(true) => {}
                Ok(false) => return Ok(None),
                Err(_) => return Err(ScriptFault::Read),
            }
        }
    }

    /// Answers each line that is read, until the input ends or a `save` or `load` is accepted. The last line may lack its line feed.
    ///
    /// Each act that a line asks for is one exact step of the script's core, in the order of the lines, and nothing else touches the core.
    /// So is what a `save` or `load` asks: a refusal is printed, and the run goes on. One that is accepted ends the run, as [`Ended::File`]
    /// says.
    ///
    /// A `begin` that finds something to merge keeps its job under the next number, for which there was room before the event was done. A
    /// `merge` makes the merge of a job, which waits on where memory lacks; an `install` uses a finished merge up, whatever it is answered.
    ///
    /// Replies are flushed whenever no more input is here, before the reader is asked for more, and at the end. A line for which memory
    /// lacks is read to its end and answered by its refusal. A fault of the reader or the writer ends the run; the
    /// lines answered before it have taken effect, and the script can be run again, from the beginning of a line.
    pub fn run<R: Input, W: Output>(
        &mut self,
        input: &mut R,
        output: &mut W,
    ) -> Result<Ended, ScriptFault>
        ensures run { RunsScript R.Input W.Output self.old input.old output.old self.new input.new output.new result }
        ensures further { OnOk result (ComesFurther R.Input input.old input.new) }
    {
        let mut pending = Pending::new(self.alloc);
        match self.answer_all(&mut pending, input, output) {
            Ok(None) => {}
            Ok(Some(file)) => return Ok(Ended::File(file)),
            Err(stopped) => return Err(stopped),
        }
        if !pending.has_begun() {
            return Ok(Ended::Input);
        }
        match self.answer(&mut pending, b"", output) {
            Ok(None) => {}
            Ok(Some(file)) => return Ok(Ended::File(file)),
            Err(_) => return Err(ScriptFault::Write),
        }
        match output.flush() {
            Ok(()) => Ok(Ended::Input),
            Err(_) => Err(ScriptFault::Write),
        }
    }
}

ghost use Rattle.std.specs.Prelude.{◌≡◌, ◌≤◌, [], length, cond, nat_le, IfOk, IfSome, IsErr, None, OnErr, OnOk};
ghost use Rattle.std.specs.Option.{IsSomeAnd};
ghost use Rattle.mv_core.specs.declared.entry.Reply.TheVariants.{Acquired, Attached, Committed, Detached, NoMemory, Released, Resynced};
ghost use Rattle.mv_view.specs.ViewState.{object_of as seen_of};
ghost use Rattle.mv_view.specs.Rules as rule;
ghost use Rattle.ses_step.specs.declared.answer.Answer.TheVariants.{Refused};
ghost use Rattle.ses_step.specs.declared.session.Begun.TheVariants.{Said};
ghost use Rattle.ses_step.specs.SessionLines as line_spec;
ghost use Rattle.ses_step.specs.Sessions as spec;

use crate::answer::Answer;
use crate::command::{Asked, Command};
use crate::objects::{name_at, name_of};
use aw_cell::{Cell, Text};
use aw_dim::Dimension;
use aw_lists::{Coord, List};
use aw_schema::Catalogue;
use dml_lines::{ParseFault, statement_in};
use dml_tree::Mode;
use mv_core::{Entry, Fresh, Reply, Seen};
use mv_view::{View, ViewFault};
use ses_report::Refusal;
use std::alloc::{AllocError, Global};

/// What one session knows: its number, and what it sees of the workspace (docs/SHARING.md).
#[derive(Drop)]
pub struct Known {
    /// The session's number, by which the shared state knows it.
    pub who: u32,
    /// How it attached last.
    pub mode: Mode,
    /// Its view of the objects, once the session is attached.
    pub view: Option<View>,
}

/// One session. While it waits for a reply it keeps what it asked (docs/SHARING.md).
#[derive(Drop)]
pub struct Session {
    /// What the session knows, which no wait changes.
    pub known: Known,
    /// The command that waits for its reply.
    pub asked: Option<Command>,
}

/// What a command comes to.
#[derive(Drop)]
pub enum Begun {
    /// The session answers by itself.
    Said(Answer),
    /// The session asks the shared state, and answers by the reply.
    Ask(Entry),
}

pub fn refused(refusal: Refusal) -> Begun
    ensures { result ≡ Said (Refused refusal) }
{
    Begun::Said(Answer::Refused(refusal))
}

/// A fault of the tokens or the grammar of lines, as a refusal. A line of a block is told by its number.
pub fn parse_refusal(fault: ParseFault) -> Refusal
    ensures { result ≡ line_spec.parse_refusal fault }
{
    match fault {
        ParseFault::Syntax { line, column } => Refusal::syntax(column).in_line(line),
        ParseFault::NotHere { line } => Refusal::not_in_a_program().in_line(line),
        ParseFault::NoMemory => Refusal::no_form(),
    }
}

/// What a line asks for that has such a fault. The only error is want of memory.
fn refused_by(fault: ParseFault) -> Result<Asked, AllocError>
    ensures value { IfOk result (λ asked. asked ≡ Asked.Refused (line_spec.parse_refusal fault)) }
    ensures memory { fault ≡ ParseFault.NoMemory → IsErr result }
{
    match fault {
        ParseFault::NoMemory => Err(AllocError),
        fault => Ok(Asked::Refused(parse_refusal(fault))),
    }
}

/// Writes cells that an object can hold, and tells whether there was room for them.
#[tactic(auto, using(crate::proofs::HeldCells::cells_held))]
fn write_cells(
    view: &mut View,
    object: u16,
    cells: &List<(Coord, Cell)>,
) -> Result<bool, AllocError>
    requires { IsSomeAnd (seen_of view.old object) (λ found. spec.AreHeldBy found.kind cells.now) }
    ensures room { IfOk result (λ room. room ≡ nat_le (rule.private_pages (rule.written view.old object cells.now) object) 65536) }
    ensures written { IfOk result (λ room. view.new ≡ cond room (rule.written view.old object cells.now) view.old) }
    ensures err { OnErr result (view.new ≡ view.old) }
{
    match view.write(object, cells) {
        Ok(()) => Ok(true),
        Err(ViewFault::Full) => Ok(false),
        Err(ViewFault::NoMemory) => Err(AllocError),
    }
}

/// Gives an owned dimension these values.
fn maintain_values(view: &mut View, object: u16, values: Dimension) -> Result<(), AllocError>
    requires { IsSomeAnd (seen_of view.old object) (spec.CanMaintain values) }
    ensures ok { OnOk result (view.new ≡ rule.maintained view.old object values) }
    ensures err { OnErr result (view.new ≡ view.old) }
{
    view.maintain(object, values)
}

/// How a session asked to attach.
fn mode_asked(asked: &Option<Command>) -> Mode
    ensures { result ≡ spec.mode_asked asked.now }
{
    match asked {
        Some(Command::Attach(mode)) => *mode,
        _ => Mode::Multi,
    }
}

/// The objects that it asked to own with the bodies that it has.
fn kept_asked<'a>(asked: &'a Option<Command>, none: &'a List<u16>) -> &'a List<u16>
    requires { none.now ≡ [] }
    ensures { result.now ≡ spec.kept_asked asked.now }
{
    match asked {
        Some(Command::Acquire { keep, .. }) => keep,
        _ => none,
    }
}

/// The objects that it is giving up.
fn given_asked<'a>(asked: &'a Option<Command>, none: &'a List<u16>) -> &'a List<u16>
    requires { none.now ≡ [] }
    ensures { result.now ≡ spec.given_asked asked.now }
{
    match asked {
        Some(Command::Release(objects)) => objects,
        _ => none,
    }
}

impl Known {
    fn new(who: u32) -> Known
        ensures { result ≡ spec.new_session who }
    {
        Known {
            who,
            mode: Mode::Multi,
            view: None,
        }
    }

    fn attach(&self, mode: Mode) -> Begun
        ensures { (result, self.now) ≡ spec.begun [] self.now (Command.Attach mode) }
    {
        match &self.view {
            None => Begun::Ask(Entry::Attach { who: self.who }),
            Some(_) => refused(Refusal::already_attached()),
        }
    }

    fn write(
        &mut self,
        catalogue: &Catalogue,
        object: u16,
        cells: &List<(Coord, Cell)>,
    ) -> Result<Begun, AllocError>
        requires { spec.IsReady self.old (Command.Write object cells.now) }
        ensures begun { IfOk result (λ begun.
            (begun, self.new) ≡ spec.begun catalogue.now self.old (Command.Write object cells.now)) }
        ensures err { OnErr result (self.new ≡ self.old) }
    {
        let Some(view) = &mut self.view else {
            return Ok(refused(Refusal::not_attached()));
        };
        if write_cells(view, object, cells)? {
            Ok(Begun::Said(Answer::Done))
        } else {
            Ok(refused(Refusal::full(name_of(catalogue, object))))
        }
    }

    fn said(&self, cell: Cell) -> Begun
        ensures { (result, self.now) ≡ spec.begun [] self.now (Command.Show cell) }
    {
        match &self.view {
            None => refused(Refusal::not_attached()),
            Some(_) => Begun::Said(Answer::Shown(cell)),
        }
    }

    fn maintain(&mut self, object: u16, values: &Dimension) -> Result<Begun, AllocError>
        requires { spec.IsReady self.old (Command.Maintain object values.now) }
        ensures begun { IfOk result (λ begun.
            (begun, self.new) ≡ spec.begun [] self.old (Command.Maintain object values.now)) }
        ensures err { OnErr result (self.new ≡ self.old) }
    {
        match &mut self.view {
            None => Ok(refused(Refusal::not_attached())),
            Some(view) => {
                let values = values.copied()?;
                maintain_values(view, object, values)?;
                Ok(Begun::Said(Answer::Done))
            }
        }
    }

    fn begin(
        &mut self,
        alloc: Global,
        catalogue: &Catalogue,
        own: &Command,
    ) -> Result<Begun, AllocError>
        requires sees { spec.Sees catalogue.now self.old }
        requires ready { spec.IsReady self.old own.now }
        ensures begun { IfOk result (λ begun.
            (begun, self.new) ≡ spec.begun catalogue.now self.old own.now) }
        ensures err { OnErr result (self.new ≡ self.old) }
        ensures memory { OnErr result (spec.TakesMemory own.now) }
    {
        match own {
            Command::Attach(mode) => Ok(self.attach(*mode)),
            Command::Write { object, cells } => self.write(catalogue, *object, cells),
            Command::Show(cell) => Ok(self.said(*cell)),
            Command::Maintain { object, values } => self.maintain(*object, values),
            Command::Detach => Ok(self.detach()),
            Command::Acquire { keep, fresh, same } => {
                self.acquire(alloc, catalogue, keep, fresh, same)
            }
            Command::Resync(objects) => self.resync(alloc, objects),
            Command::Release(objects) => self.release(alloc, catalogue, objects),
            Command::Revert(objects) => self.revert(alloc, catalogue, objects),
            Command::Update(objects) => self.update(alloc, objects),
            Command::Commit => self.commit(alloc, catalogue),
        }
    }

    /// The command that a line asks for, or why it is refused.
    fn asked(
        &self,
        alloc: Global,
        catalogue: &Catalogue,
        line: &[u8],
        from: u32,
    ) -> Result<Asked, AllocError>
        requires sees { spec.Sees catalogue.now self.now }
        requires short { length line.now ≤ 4096 }
        requires within { from ≤ length line.now }
        ensures { IfOk result (λ asked. asked ≡ line_spec.asked catalogue.now self.now line.now from) }
    {
        match statement_in(alloc, line, from) {
            Ok(statement) => self.asked_by(alloc, catalogue, &statement),
            Err(fault) => refused_by(fault),
        }
    }

    fn attached(
        &mut self,
        alloc: Global,
        catalogue: &Catalogue,
        asked: &Option<Command>,
        fresh: List<Fresh>,
    ) -> Result<Answer, AllocError>
        requires { spec.Allows catalogue.now (spec.holding self.old asked.now) (Attached fresh) }
        ensures finished { IfOk result (λ answer.
            (answer, self.new) ≡ spec.finished_by catalogue.now [] self.old asked.now (Attached fresh)) }
        ensures err { OnErr result (self.new ≡ self.old) }
    {
        let view = View::attach(alloc, self.who, catalogue, fresh)?;
        self.mode = mode_asked(asked);
        self.view = Some(view);
        Ok(Answer::Done)
    }

    fn acquired(&mut self, alloc: Global, asked: &Option<Command>, fresh: List<Fresh>) -> Answer
        requires { spec.Allows [] (spec.holding self.old asked.now) (Acquired fresh) }
        ensures { (result, self.new) ≡ spec.finished_by [] [] self.old asked.now (Acquired fresh) }
    {
        let none = List::new(alloc);
        if let Some(view) = &mut self.view {
            view.own(kept_asked(asked, &none), fresh);
        }
        Answer::Done
    }

    fn resynced(&mut self, fresh: List<Fresh>) -> Answer
        requires { spec.Allows [] (spec.resting self.old) (Resynced fresh) }
        ensures { (result, self.new) ≡ spec.finished_by [] [] self.old None (Resynced fresh) }
    {
        if let Some(view) = &mut self.view {
            view.take(fresh);
        }
        Answer::Done
    }

    fn committed(&mut self) -> Answer
        ensures { (result, self.new) ≡ spec.finished_by [] [] self.old None Committed }
    {
        if let Some(view) = &mut self.view {
            view.committed();
        }
        Answer::Done
    }

    fn released(&mut self, alloc: Global, asked: &Option<Command>) -> Answer
        requires { spec.Allows [] (spec.holding self.old asked.now) Released }
        ensures { (result, self.new) ≡ spec.finished_by [] [] self.old asked.now Released }
    {
        let none = List::new(alloc);
        if let Some(view) = &mut self.view {
            view.release(given_asked(asked, &none));
        }
        Answer::Done
    }

    fn detached(&mut self) -> Answer
        ensures { (result, self.new) ≡ spec.finished_by [] [] self.old None Detached }
    {
        self.view = None;
        Answer::Done
    }

    fn finish(
        &mut self,
        alloc: Global,
        catalogue: &Catalogue,
        names: &[Text],
        asked: &Option<Command>,
        reply: Reply,
    ) -> Result<Answer, AllocError>
        requires { spec.Allows catalogue.now (spec.holding self.old asked.now) reply }
        ensures finished { IfOk result (λ answer.
            (answer, self.new) ≡ spec.finished_by catalogue.now names.now self.old asked.now reply) }
        ensures memory { reply ≡ NoMemory → IsErr result }
        ensures err { OnErr result (self.new ≡ self.old) }
        ensures needs { OnErr result (spec.MayWantMemory reply) }
    {
        match reply {
            Reply::Attached(fresh) => self.attached(alloc, catalogue, asked, fresh),
            Reply::Acquired(fresh) => Ok(self.acquired(alloc, asked, fresh)),
            Reply::Resynced(fresh) => Ok(self.resynced(fresh)),
            Reply::Committed => Ok(self.committed()),
            Reply::Released => Ok(self.released(alloc, asked)),
            Reply::Detached => Ok(self.detached()),
            Reply::Owned { object, by } => Ok(Answer::Refused(Refusal::owned_by(
                name_of(catalogue, object),
                name_at(names, by as usize),
            ))),
            Reply::Newer { object, number } => Ok(Answer::Refused(Refusal::newer(
                name_of(catalogue, object),
                number,
            ))),
            Reply::Stranger { object } => Ok(Answer::Refused(Refusal::not_acquired(name_of(
                catalogue, object,
            )))),
            Reply::Worn { object } => {
                Ok(Answer::Refused(Refusal::full(name_of(catalogue, object))))
            }
            Reply::TooLarge { .. } => Ok(Answer::Refused(Refusal::too_large())),
            Reply::Fault => Ok(Answer::Refused(Refusal::disk_fault())),
            Reply::NoMemory => Err(AllocError),
        }
    }
}

impl Session {
    /// A session of this number. It isn't attached yet.
    pub fn new(who: u32) -> Session
        ensures { result ≡ spec.resting (spec.new_session who) }
    {
        Session {
            known: Known::new(who),
            asked: None,
        }
    }

    /// Answers a line that is refused.
    fn refused(&mut self, refusal: Refusal) -> Begun
        ensures { (result, self.new) ≡ line_spec.begun_as [] self.old.known (Asked.Refused refusal) }
    {
        self.asked = None;
        refused(refusal)
    }

    /// Begins a command, and keeps it where it asks for something.
    fn run(
        &mut self,
        alloc: Global,
        catalogue: &Catalogue,
        own: Command,
    ) -> Result<Begun, AllocError>
        requires sees { spec.Sees catalogue.now self.old.known }
        requires ready { spec.IsReady self.old.known own }
        ensures begun { IfOk result (λ begun.
            (begun, self.new) ≡ spec.kept_waiting own (spec.begun catalogue.now self.old.known own)) }
        ensures err { OnErr result (self.new ≡ self.old) }
    {
        let begun = self.known.begin(alloc, catalogue, &own)?;
        self.asked = match &begun {
            Begun::Ask(_) => Some(own),
            Begun::Said(_) => None,
        };
        Ok(begun)
    }

    /// Begins a line, whose statement stands from this place on: the session answers it, or asks the
    /// shared state for an entry, whose reply goes to `finish` (docs/LANGUAGE.md, "Statements"). The
    /// line is as long as a line may be at most. The view of an attached session is of the objects of
    /// this catalogue.
    ///
    /// It is refused with 1 at the column of the first token with which its tokens begin no statement.
    /// Then a session that isn't attached is refused (15), or for AW ATTACH one that is (16); an
    /// unknown name (2), an object of a wrong kind (3), a name that comes twice (7); an object that the
    /// session doesn't own (19) or owns (20); types (4) and dimensions (5) that don't fit, and too much
    /// weight (14); a fixed value that its dimension lacks (6); and then what doesn't run yet, with 1
    /// and column 1. The expressions of SHOW and of an assignment are evaluated: too many cells are
    /// refused (14), a dimension without values (8), a result that is out of range (9), a division by
    /// zero (10), a text that a relation's target doesn't have (6), and cells for which there are no
    /// more pages (22). The only error is want of memory, which leaves the session as it was.
    pub fn begin(
        &mut self,
        alloc: Global,
        catalogue: &Catalogue,
        line: &[u8],
        from: u32,
    ) -> Result<Begun, AllocError>
        requires sees { spec.Sees catalogue.now self.old.known }
        requires short { length line.now ≤ 4096 }
        requires within { from ≤ length line.now }
        ensures begun { IfOk result (λ begun.
            (begun, self.new) ≡ line_spec.line_begun catalogue.now self.old.known line.now from) }
        ensures ready { IfOk result (λ begun. IfSome self.new.asked (spec.IsReady self.new.known)) }
        ensures err { OnErr result (self.new ≡ self.old) }
    {
        match self.known.asked(alloc, catalogue, line, from)? {
            Asked::Refused(refusal) => Ok(self.refused(refusal)),
            Asked::Runs(own) => self.run(alloc, catalogue, own),
        }
    }

    /// Takes the reply to the entry that the session asked for, and answers the command
    /// (docs/SHARING.md). The bodies that the reply hands over go into the view; they have the forms
    /// of their definitions in this catalogue, and to a session that attaches one generation of each
    /// kept object is handed over, in order of definition. `names` are those of the sessions by their
    /// numbers. The session waits no more.
    ///
    /// Refused are a commit whose record would be too long (14), an object that another session owns
    /// (17), one with a newer generation (18), one that the session doesn't own (19), one whose
    /// numbers are used up (22), and a commit in which the disk failed (30), as the reply says; what
    /// the session knows stays as it was. The only error is want of memory, in the reply or for the
    /// view of a session that attaches, which leaves what the session knows as it was, too.
    pub fn finish(
        &mut self,
        alloc: Global,
        catalogue: &Catalogue,
        names: &[Text],
        reply: Reply,
    ) -> Result<Answer, AllocError>
        requires allowed { spec.Allows catalogue.now self.old reply }
        ensures finished { IfOk result (λ answer.
            (answer, self.new.known) ≡ spec.finished catalogue.now names.now self.old reply) }
        ensures rests { self.new.asked ≡ None }
        ensures memory { reply ≡ NoMemory → IsErr result }
        ensures err { OnErr result (self.new.known ≡ self.old.known) }
        ensures needs { OnErr result (spec.MayWantMemory reply) }
    {
        let asked = self.asked.take();
        self.known.finish(alloc, catalogue, names, &asked, reply)
    }
}

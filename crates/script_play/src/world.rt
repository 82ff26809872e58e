ghost use Rattle.std.specs.Prelude.{◌≡◌, ◌≢◌, ◌<◌, ◌≤◌, ◌++◌, ◌∷◌, [], min, IfOk, OnOk, OnErr, None, Some, is_none, length, Err};
ghost use Rattle.aw_store.specs.StoredRecords.{definitions_of};
ghost use Rattle.ses_step.specs.declared.line.LineForm.TheVariants.{Definition};
ghost use Rattle.ses_step.specs.Lines.{line_form};
ghost use Rattle.ses_step.specs.Sessions.{Sees};
ghost use Rattle.script_meaning.specs.Language.{block_form, form_of, written};
ghost use Rattle.script_world.specs.Worlds as spec;
ghost use Rattle.script_play.specs.inside.StoreWorlds.{AllSee, IsSound, JoinsSo, definitions_in, own_known, own_place, placed};
ghost use Rattle.script_play.specs.inside.LineSteps.{TurnsAt, TurnWants, Answers, Wants, OpensSo, ClosesSo, FinishesWorldSo, Responds, RespondsSo, IsOpen, IsOfSession, definition_means, ended_means, event_means, form_means, turn_means, session_means, named_means, line_means};
ghost use Rattle.script_play.specs.inside.Telling.{HasTold};

use crate::draft::{draft_lines, late};
use crate::response::Response;
use crate::stop::Stop;
use crate::telling::tell_last;
use crate::turn::take_turn;
use aw_cell::Text;
use aw_disk::Disk;
use aw_feed::{Feed, Listeners};
use aw_lists::List;
use aw_schema::Catalogue;
use aw_store::{Store, StoreFault};
use core::mem;
use ses_report::Refusal;
use ses_step::{Answer, LineForm, Names, Session, is_end, name_at, opens_block, sort_line};
use std::alloc::{AllocError, Global};

/// How many sessions a run may have.
const MOST_SESSIONS: usize = 64;

/// The world of a run: the definitions that the script drafts until they are written, the store,
/// which is the shared state once it has definitions, and the names and the states of the sessions
/// by first appearance.
#[derive(Drop)]
pub struct StoreWorld<S> {
    pub drafted: Catalogue,
    /// The lines so far of a definition that isn't whole yet.
    pub open_lines: List<List<u8>>,
    pub store: S,
    pub names: Names,
    pub sessions: List<Session>,
}

fn no_session() -> Text
    ensures { result ≡ spec.no_session }
{
    Text::of(b"*").unwrap()
}

/// A line of the session at a place.
fn take_turn_at<D: Disk>(
    alloc: Global,
    world: &mut StoreWorld<Store<D>>,
    who: usize,
    line: &[u8],
    from: u32,
    feed: &mut Feed,
) -> Result<Answer, AllocError>
    requires here { who < length world.old.sessions }
    requires closed { IsOpen world.old.store }
    requires sees { Sees (definitions_in world.old.store) (own_known world.old who) }
    requires short { length line.now ≤ 4096 }
    requires within { from ≤ length line.now }
    ensures ok { IfOk result (λ answer. TurnsAt D.faults D.clock D.crash (written line.now from) answer who world.old world.new) }
    ensures err { OnErr result (TurnWants D.faults D.clock D.crash (definitions_in world.old.store) world.old.names (written line.now from) (own_known world.old who) world.old.store world.new.store) }
    ensures told { HasTold (⟦<Feed as Listeners>⟧.listening feed.old) (⟦<Feed as Listeners>⟧.listening feed.new) world.old.store world.new.store }
{
    let StoreWorld {
        store,
        names,
        sessions,
        ..
    } = world;
    let session = sessions.at_mut(who);
    match take_turn(alloc, names.as_slice(), store, session, line, from, feed) {
        Ok(answer) => Ok(answer),
        Err(full) => Err(full),
    }
}

impl<D: Disk> StoreWorld<Store<D>> {
    /// Whether the definitions are still to be written.
    fn is_unopened(&self) -> bool
        ensures { result ≡ is_none (definitions_of self.now.store.records) }
    {
        match self.store.catalogue() {
            Some(_) => false,
            None => true,
        }
    }

    /// Why the lines of a definition are refused. What isn't refused joins the drafts, which it can
    /// until they are written.
    fn define(
        &mut self,
        alloc: Global,
        lines: &List<List<u8>>,
    ) -> Result<Option<Refusal>, AllocError>
        ensures ok { IfOk result (λ refusal. JoinsSo lines.now refusal self.old self.new) }
        ensures err { OnErr result (self.new ≡ self.old) }
    {
        if !self.is_unopened() {
            return Ok(Some(late(lines.as_slice())));
        }
        match draft_lines(alloc, &mut self.drafted, lines) {
            Ok(refusal) => Ok(refusal),
            Err(full) => Err(full),
        }
    }

    /// Answers the definition that the open lines are.
    fn define_open(&mut self, alloc: Global) -> Result<Option<Response>, AllocError>
        requires { IsSound self.old }
        ensures ok { IfOk result (λ response. Responds D.faults D.clock D.crash definition_means response self.old self.new) }
        ensures store { self.new.store ≡ self.old.store }
    {
        let lines = mem::replace(&mut self.open_lines, List::new(alloc));
        match self.define(alloc, &lines) {
            Ok(Some(refusal)) => Ok(Some(Response::refusing(no_session(), refusal))),
            Ok(None) => Ok(None),
            Err(full) => Err(full),
        }
    }

    /// Keeps a line of a definition.
    fn keep_line(&mut self, alloc: Global, line: &[u8]) -> Result<(), AllocError>
        ensures ok { OnOk result (self.new ≡ record self.old { open_lines = self.old.open_lines ++ line.now ∷ [] }) }
        ensures store { self.new.store ≡ self.old.store }
    {
        let line = List::from_slice(alloc, line)?;
        self.open_lines.push(line)
    }

    /// The last line of a definition: answers all its lines.
    fn end_definition(&mut self, alloc: Global, line: &[u8]) -> Result<Option<Response>, AllocError>
        requires { IsSound self.old }
        ensures ok { IfOk result (λ response. Responds D.faults D.clock D.crash (ended_means line.now) response self.old self.new) }
        ensures store { self.new.store ≡ self.old.store }
    {
        match self.keep_line(alloc, line) {
            Ok(()) => {}
            Err(full) => return Err(full),
        }
        match self.define_open(alloc) {
            Ok(response) => Ok(response),
            Err(full) => Err(full),
        }
    }

    /// The script has ended: a definition that it left open is answered.
    pub fn end_block(&mut self, alloc: Global) -> Result<Option<Response>, Stop>
        requires { IsSound self.old }
        ensures responds { RespondsSo D.faults D.clock D.crash (event_means spec.block_ends) result self.old self.new }
        ensures never { result ≢ Err Stop.DiskFault }
        ensures store { self.new.store ≡ self.old.store }
    {
        if self.open_lines.is_empty() {
            return Ok(None);
        }
        match self.define_open(alloc) {
            Ok(response) => Ok(response),
            Err(_) => Err(Stop::NoMemory),
        }
    }

    /// Writes the definitions that were drafted, where there are none on the disk, and tells the
    /// listeners their record. After an `Err` they are gone.
    pub fn open(&mut self, alloc: Global, feed: &mut Feed) -> Result<(), Stop>
        requires sound { IsSound self.old }
        requires unopened { definitions_of self.old.store.records ≡ None }
        ensures opens { OpensSo D.faults D.clock D.crash result self.old self.new }
        ensures told { HasTold (⟦<Feed as Listeners>⟧.listening feed.old) (⟦<Feed as Listeners>⟧.listening feed.new) self.old.store self.new.store }
    {
        self.store.recall_invariant();
        let drafted = mem::replace(&mut self.drafted, Catalogue::new(alloc));
        match self.store.define(drafted) {
            Ok(()) => {
                tell_last(&self.store, feed);
                Ok(())
            }
            Err(StoreFault::DiskFault) => Err(Stop::DiskFault),
            Err(StoreFault::NoMemory) => Err(Stop::NoMemory),
            Err(StoreFault::Defined) => unreachable!(),
        }
    }

    /// Opens the store where it isn't open: the definitions are written, and closed so.
    fn open_once(&mut self, alloc: Global, feed: &mut Feed) -> Result<(), Stop>
        requires { IsSound self.old }
        ensures closes { ClosesSo D.faults D.clock D.crash result self.old self.new }
        ensures told { HasTold (⟦<Feed as Listeners>⟧.listening feed.old) (⟦<Feed as Listeners>⟧.listening feed.new) self.old.store self.new.store }
    {
        if !self.is_unopened() {
            return Ok(());
        }
        match self.open(alloc, feed) {
            Ok(()) => Ok(()),
            Err(stop) => Err(stop),
        }
    }

    /// The script has ended: writes what was only defined.
    pub fn finish(&mut self, alloc: Global, feed: &mut Feed) -> Result<(), Stop>
        requires { IsSound self.old }
        ensures finishes { FinishesWorldSo D.faults D.clock D.crash result self.old self.new }
        ensures told { HasTold (⟦<Feed as Listeners>⟧.listening feed.old) (⟦<Feed as Listeners>⟧.listening feed.new) self.old.store self.new.store }
    {
        if !self.is_unopened() {
            return Ok(());
        }
        if self.drafted.len() == 0 {
            return Ok(());
        }
        match self.open(alloc, feed) {
            Ok(()) => Ok(()),
            Err(stop) => Err(stop),
        }
    }

    fn session_place(&self, name: &Text) -> usize
        ensures { result ≡ own_place self.now name.now }
    {
        self.names.find(name).unwrap_or(self.names.len())
    }

    /// Gives a name its place; one that hasn't appeared yet makes a session, where there's room.
    fn add_session(&mut self, alloc: Global, name: Text) -> Result<(), AllocError>
        ensures added { OnOk result (self.new ≡ placed self.old name) }
        ensures store { self.new.store ≡ self.old.store }
    {
        let who = self.session_place(&name);
        if who < self.names.len() {
            return Ok(());
        }
        let last = self.names.len();
        self.names.push(name)?;
        if last < MOST_SESSIONS {
            self.sessions.push(Session::new(last as u32))
        } else {
            Ok(())
        }
    }

    /// What a line of the session at a place is answered, under its name.
    fn turn(
        &mut self,
        alloc: Global,
        who: usize,
        line: &[u8],
        from: u32,
        feed: &mut Feed,
    ) -> Result<Response, AllocError>
        requires placed { who < length self.old.sessions }
        requires closed { IsOpen self.old.store }
        requires seen { AllSee (definitions_in self.old.store) self.old.sessions }
        requires short { length line.now ≤ 4096 }
        requires within { from ≤ length line.now }
        ensures ok { IfOk result (λ response. Answers D.faults D.clock D.crash (turn_means who (written line.now from)) (Some response) self.old self.new) }
        ensures err { OnErr result (Wants D.faults D.clock D.crash (turn_means who (written line.now from)) self.old self.new) }
        ensures told { HasTold (⟦<Feed as Listeners>⟧.listening feed.old) (⟦<Feed as Listeners>⟧.listening feed.new) self.old.store self.new.store }
    {
        let prefix = name_at(self.names.as_slice(), who);
        match take_turn_at(alloc, self, who, line, from, feed) {
            Ok(answer) => Ok(Response { prefix, answer }),
            Err(full) => Err(full),
        }
    }

    /// A line under the name of a session, once the definitions are closed.
    fn session_line(
        &mut self,
        alloc: Global,
        name: Text,
        line: &[u8],
        from: u32,
        feed: &mut Feed,
    ) -> Result<Response, AllocError>
        requires paired { length self.old.sessions ≡ min (length self.old.names) 64 }
        requires closed { IsOpen self.old.store }
        requires seen { AllSee (definitions_in self.old.store) self.old.sessions }
        requires short { length line.now ≤ 4096 }
        requires within { from ≤ length line.now }
        ensures ok { IfOk result (λ response. Answers D.faults D.clock D.crash (session_means name (written line.now from)) (Some response) self.old self.new) }
        ensures err { OnErr result (Wants D.faults D.clock D.crash (session_means name (written line.now from)) self.old self.new) }
        ensures told { HasTold (⟦<Feed as Listeners>⟧.listening feed.old) (⟦<Feed as Listeners>⟧.listening feed.new) self.old.store self.new.store }
    {
        let who = self.session_place(&name);
        match self.add_session(alloc, name) {
            Ok(()) => {}
            Err(full) => return Err(full),
        }
        if who >= MOST_SESSIONS {
            let prefix = name_at(self.names.as_slice(), who);
            return Ok(Response::refusing(prefix, Refusal::too_many_sessions()));
        }
        match self.turn(alloc, who, line, from, feed) {
            Ok(response) => Ok(response),
            Err(full) => Err(full),
        }
    }

    /// A line under the name of a session, which closes the definitions.
    fn under_name(
        &mut self,
        alloc: Global,
        name: Text,
        line: &[u8],
        from: u32,
        feed: &mut Feed,
    ) -> Result<Option<Response>, Stop>
        requires sound { IsSound self.old }
        requires short { length line.now ≤ 4096 }
        requires within { from ≤ length line.now }
        ensures responds { RespondsSo D.faults D.clock D.crash (named_means name (written line.now from)) result self.old self.new }
        ensures told { HasTold (⟦<Feed as Listeners>⟧.listening feed.old) (⟦<Feed as Listeners>⟧.listening feed.new) self.old.store self.new.store }
    {
        match self.open_once(alloc, feed) {
            Ok(()) => match self.session_line(alloc, name, line, from, feed) {
                Ok(response) => Ok(Some(response)),
                Err(_) => Err(Stop::NoMemory),
            },
            Err(stop) => Err(stop),
        }
    }

    /// A line behind the open ones of a block.
    fn block_line(&mut self, alloc: Global, line: &[u8]) -> Result<Option<Response>, AllocError>
        requires { IsSound self.old }
        ensures ok { IfOk result (λ response. Responds D.faults D.clock D.crash (form_means line.now (block_form line.now)) response self.old self.new) }
        ensures store { self.new.store ≡ self.old.store }
    {
        if is_end(line) {
            match self.end_definition(alloc, line) {
                Ok(response) => Ok(response),
                Err(full) => Err(full),
            }
        } else {
            match self.keep_line(alloc, line) {
                Ok(()) => Ok(None),
                Err(full) => Err(full),
            }
        }
    }

    /// A line that defines an object, or opens a block that does.
    fn definition_line(
        &mut self,
        alloc: Global,
        line: &[u8],
    ) -> Result<Option<Response>, AllocError>
        requires { IsSound self.old }
        ensures ok { IfOk result (λ response. Responds D.faults D.clock D.crash (form_means line.now (form_of line.now Definition)) response self.old self.new) }
        ensures store { self.new.store ≡ self.old.store }
    {
        if opens_block(line) {
            match self.keep_line(alloc, line) {
                Ok(()) => Ok(None),
                Err(full) => Err(full),
            }
        } else {
            match self.end_definition(alloc, line) {
                Ok(response) => Ok(response),
                Err(full) => Err(full),
            }
        }
    }

    /// A line where no definition is open.
    fn first_line(
        &mut self,
        alloc: Global,
        line: &[u8],
        feed: &mut Feed,
    ) -> Result<Option<Response>, Stop>
        requires sound { IsSound self.old }
        requires whole { self.old.open_lines ≡ [] }
        ensures responds { RespondsSo D.faults D.clock D.crash (form_means line.now (form_of line.now (line_form line.now))) result self.old self.new }
        ensures closes { result ≡ Err Stop.DiskFault → IsOfSession line.now }
        ensures told { HasTold (⟦<Feed as Listeners>⟧.listening feed.old) (⟦<Feed as Listeners>⟧.listening feed.new) self.old.store self.new.store }
    {
        match sort_line(line) {
            LineForm::Blank => Ok(None),
            LineForm::Bad(refusal) => Ok(Some(Response::refusing(no_session(), refusal))),
            LineForm::Definition => match self.definition_line(alloc, line) {
                Ok(response) => Ok(response),
                Err(_) => Err(Stop::NoMemory),
            },
            LineForm::Session { name, from } => match self.under_name(
                alloc, name, line, from, feed,
            ) {
                Ok(response) => Ok(response),
                Err(stop) => Err(stop),
            },
        }
    }

    /// What a line is answered. After an `Err` the world is of no more use, but its store is.
    pub fn answer(
        &mut self,
        alloc: Global,
        line: &[u8],
        feed: &mut Feed,
    ) -> Result<Option<Response>, Stop>
        requires { IsSound self.old }
        ensures responds { RespondsSo D.faults D.clock D.crash (line_means line.now) result self.old self.new }
        ensures closes { result ≡ Err Stop.DiskFault → IsOfSession line.now × (self.old.open_lines ≡ []) }
        ensures told { HasTold (⟦<Feed as Listeners>⟧.listening feed.old) (⟦<Feed as Listeners>⟧.listening feed.new) self.old.store self.new.store }
    {
        if self.open_lines.is_empty() {
            return self.first_line(alloc, line, feed);
        }
        match self.block_line(alloc, line) {
            Ok(response) => Ok(response),
            Err(_) => Err(Stop::NoMemory),
        }
    }
}

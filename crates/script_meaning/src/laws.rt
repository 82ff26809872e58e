//! What holds at every moment of every run, on a disk that was opened with any records that can be
//! replayed, whichever names of sessions are known before, and whichever of its commits meet a fault
//! of the disk.

ghost use Rattle.std.specs.Prelude.{◌≡◌, ◌≤◌, ◌++◌, ℕ, List, Option, None, Some, IsSome, length};
ghost use Rattle.aw_schema.specs.declared.definition.Def.{Def};
ghost use Rattle.aw_body.specs.declared.body.Body.{Body};
ghost use Rattle.aw_codec.specs.declared.record.Decoded.{Decoded};
ghost use Rattle.mv_core.specs.declared.object.Object.{Object};
ghost use Rattle.script_world.specs.Faults.{SeesFaults, FaultsAreSeen};
ghost use Rattle.script_world.specs.Laws.{KeepsOthers, SameOf, GoesOn, RefusalChangesNothing, LeavesApart, MalformedIsRefused, ClosesExactly, SessionsAreAnswered, TextFixesWorld, LinesAreSplit};
ghost use Rattle.script_world.specs.Outcomes.{LeavesAllDone, Outcome, Attempt, among, used, AreDone};
ghost use Rattle.script_world.specs.Worlds.{Event};
ghost use Rattle.script_meaning.specs.AcquireAnswers.{AcquiresAreAnswered};
ghost use Rattle.script_meaning.specs.ObjectsSimulation.{AreAlike};
ghost use Rattle.script_meaning.specs.AllDone.{IsAsWithNone};
ghost use Rattle.script_meaning.specs.LineAnswers.{AssignmentsAreDone, AssignmentsHaveTargets, IntegersAreAssigned, IsOneLine, LinesAreAnswered, SharingGoesAhead, SinglesAreDone, SinglesAreShown};
ghost use Rattle.script_meaning.specs.CommitFaults.{is_fault, fault_answer};
ghost use Rattle.script_meaning.specs.CrashRuns.{LeavesARunOf, LeavesWhatOpens};
ghost use Rattle.script_meaning.specs.DefinitionAnswers.{BlocksAreOpen, DefinitionsAreAnswered};
ghost use Rattle.script_meaning.specs.Dump.{DumpTells, RecordsTell};
ghost use Rattle.script_meaning.specs.Extending.{CommitsExtend, GrantsHaveLatest};
ghost use Rattle.script_meaning.specs.Fit.{WorldFits};
ghost use Rattle.script_meaning.specs.Language.{HistoryWorld, store_writing, history_machine, by_history};
ghost use Rattle.script_meaning.specs.RecordsOfRuns.{RecordsMatch, EndMatches, SameState};
ghost use Rattle.aw_store.specs.StoredRecords.{CanBeOpened};
ghost use Rattle.script_meaning.specs.SnapshotReads.{AttachGivesLatest, KeepsOwned, OwnCommandsMove, ReadersShareNothing, SeesItsOwn, ShowsWhatIsRead};
ghost use Rattle.script_meaning.specs.Transcript.{SameRecords, opening, world_at};
ghost use Rattle.script_meaning.specs.Turns.{LinesTakeTurns};

/// After any lines of a script the view of each attached session fits what is committed and owned:
/// the session has one committed generation of each kept object, has the latest one of an object
/// that it owns, and has staged nothing of an object that it doesn't own, nor is that leaving; and a
/// record can hold what it staged. Only attached sessions own objects, and none of those that attached
/// for reading alone. See docs/SHARING.md, 'What is proved'.
pub fn views_fit()
    ensures { (names : List (List ℕ)) (records : List Decoded) (coming : List Outcome) (events : List Event) → CanBeOpened records → WorldFits (world_at names records coming events) }
{}

/// After any lines of a script, a COMMIT of an attached session that is answered `ok` makes each
/// staged body that isn't the base the generation behind the one that the session had, which was the
/// latest, and adds none to any other object; and what was marked as leaving nobody owns then, while
/// any other object is whose it was. Else it is refused, with 22 where an object's numbers are used
/// up, with 14 where its record would have more than 67,108,864 bytes, or with 30 where the disk
/// failed, and then changes nothing. See docs/SHARING.md, 'What is proved'.
pub fn commits_extend_the_latest()
    ensures { (names : List (List ℕ)) (records : List Decoded) (coming : List Outcome) (events : List Event) → CanBeOpened records → CommitsExtend coming (world_at names records coming events) }
{}

/// After any lines of a script, an ACQUIRE of an attached session that is answered `ok` leaves it with
/// the latest generation of each object of its three lists, which of those that aren't behind RESYNC it
/// had before; and the session owns those that aren't behind CONSISTENT WITH from then on. See
/// docs/SHARING.md, 'What is proved'.
pub fn grants_have_the_latest()
    ensures { (names : List (List ℕ)) (records : List Decoded) (coming : List Outcome) (events : List Event) → CanBeOpened records → GrantsHaveLatest coming (world_at names records coming events) }
{}

/// After any lines of a script, an ACQUIRE of objects that an attached session sees is granted as a
/// whole, or refused by the first of them, in the order written, that blocks, and then changes nothing.
/// An object blocks where another session owns it (17), or where nobody does, it isn't in the list
/// behind RESYNC, and its latest number is above the session's (18). See docs/SHARING.md, 'What is
/// proved'.
pub fn acquires_are_answered()
    ensures { (names : List (List ℕ)) (records : List Decoded) (coming : List Outcome) (events : List Event) → CanBeOpened records → AcquiresAreAnswered coming (world_at names records coming events) }
{}

/// What a session sees of an object is its own: the latest generation when it attached, and what
/// its own commands made of that since. An assignment changes the cells that its expression gives
/// of what it reads of one object, MAINTAIN what it stages and reads of one dimension, and SHOW,
/// which shows what its expression comes to by what the session reads, changes nothing: the name of
/// a variable without dimensions shows its one cell, and an INTEGER that is assigned to such a one
/// is that cell. UPDATE stages what is read, REVERT gives back what was staged, RESYNC and ACQUIRE
/// with RESYNC give the latest generation, COMMIT makes what is staged the base, and AW DETACH
/// drops it all. Ownership comes by ACQUIRE alone, and goes by RELEASE of an object of which
/// nothing is staged, by COMMIT of one that is leaving, and by AW DETACH. See docs/SHARING.md,
/// 'What is proved'.
pub fn sessions_read_their_own()
    ensures attached { (coming : List Outcome) → AttachGivesLatest coming }
    ensures moved { (names : List (List ℕ)) (records : List Decoded) (coming : List Outcome) (events : List Event) → CanBeOpened records → OwnCommandsMove coming (world_at names records coming events) }
    ensures shown { (coming : List Outcome) → ShowsWhatIsRead coming }
    ensures named { (names : List (List ℕ)) (records : List Decoded) (coming : List Outcome) (events : List Event) → CanBeOpened records → SinglesAreShown (world_at names records coming events) }
    ensures integer { IntegersAreAssigned }
    ensures since { (names : List (List ℕ)) (records : List Decoded) (coming : List Outcome) (events : List Event) → CanBeOpened records → SeesItsOwn names records coming events }
    ensures owned { (names : List (List ℕ)) (records : List Decoded) (coming : List Outcome) (events : List Event) (event : Event) → CanBeOpened records → KeepsOwned coming (world_at names records coming events) event }
{}

/// After any lines of a script, a session that attached for reading alone owns nothing, and no line of
/// it changes the commits, the owners or the records. See docs/SHARING.md, 'What is proved'.
pub fn readers_share_nothing()
    ensures { (names : List (List ℕ)) (records : List Decoded) (coming : List Outcome) (events : List Event) → CanBeOpened records → ReadersShareNothing coming (world_at names records coming events) }
{}

/// A line changes nothing of what a session holds, unless it is of that session. So what a session
/// sees changes by its own lines alone. See docs/SHARING.md, 'What is proved'.
pub fn lines_keep_other_sessions()
    ensures { (coming : List Outcome) (w : HistoryWorld) (event : Event) → KeepsOthers (by_history coming) w event }
{}

/// A session's line is refused by the first of these that applies, and leaves the session: its
/// tokens begin no statement (1); the session isn't attached (15), or for AW ATTACH is (16); it is
/// attached for reading alone (23); a name is unknown (2), of a wrong kind (3) or comes twice (7);
/// types (4) or dimensions (5) don't fit, or it weighs too much (14); the session owns an object
/// (20), or doesn't own it (19); a dimension lacks a fixed value (6). Then SHOW and an assignment
/// are evaluated by what the session reads, and refused as that is (8, 9, 10, 14 or 6); a command
/// that shares the workspace goes on, and statements of any other form don't run yet (1). MAINTAIN
/// is refused as its change of the values that the session sees is (6, 7 or 22), and else is
/// answered `ok` and changes what is staged and read of that dimension alone. A SHOW that isn't
/// refused shows its cell and changes nothing. An assignment is to a variable or a relation that
/// the session sees. It writes its cells into the private body of that object alone and is answered
/// `ok`, or is refused with 22 where the object would be on more than 65,536 pages, which after any
/// lines of a script a variable without dimensions never is. And UPDATE, REVERT, AW DETACH, RESYNC
/// of objects that the session sees, and RELEASE of objects that it owns are answered `ok`. See
/// docs/LANGUAGE.md, "Refusals".
pub fn lines_are_answered_in_order()
    ensures in_order { LinesAreAnswered }
    ensures targets { (names : List (List ℕ)) (records : List Decoded) (coming : List Outcome) (events : List Event) → CanBeOpened records → AssignmentsHaveTargets (world_at names records coming events) }
    ensures assigned { (coming : List Outcome) → AssignmentsAreDone coming }
    ensures single { (names : List (List ℕ)) (records : List Decoded) (coming : List Outcome) (events : List Event) → CanBeOpened records → SinglesAreDone coming (world_at names records coming events) }
    ensures shared { (names : List (List ℕ)) (records : List Decoded) (coming : List Outcome) (events : List Event) → CanBeOpened records → SharingGoesAhead coming (world_at names records coming events) }
{}

/// The last line of a definition is refused, before the definitions are closed, by the first of these
/// that applies: a line that is too long or has a byte that no line has (27); the first line with a
/// syntax fault (1), or with a word that no program has (24); the name is there (7); there are 4,096
/// objects or more than 6 dimensions are written (14); then the first name in it that isn't defined
/// (2), the first object in it that is no dimension (3), and the first dimension that comes again in a
/// variable (7). A formula, a program and an aggmap can't be defined yet (1). Else the definition, with
/// numbers for the names, is the last one from then on. Once they are closed it is refused with 27 or
/// 21. Any other line of a block waits for the last one. See docs/LANGUAGE.md, 'Definitions'.
pub fn definitions_are_answered()
    ensures ended { (coming : List Outcome) (w : HistoryWorld) → DefinitionsAreAnswered coming w }
    ensures open { (coming : List Outcome) (w : HistoryWorld) → BlocksAreOpen coming w }
{}

/// A refused line changes nothing: the definitions, the commits, the owners and what each session
/// holds are as before. A line with a session's name may still name a new session and close the
/// definitions: then the shared state is what the definitions open. See docs/SHARING.md, 'What is
/// proved'.
pub fn refusals_change_nothing()
    ensures { (coming : List Outcome) (w : HistoryWorld) (event : Event) → RefusalChangesNothing SameState (by_history coming) w event }
{}

/// After any lines of a script, the definitions, the commits and so the generations are those of the
/// records with which the disk was opened and then of the attempts that were done; and these
/// records can be replayed. So what was acknowledged is what a later run finds. The same holds of
/// the definitions at the end of a script. See docs/SHARING.md, 'Commits on a disk'.
pub fn records_match()
    ensures so_far { (names : List (List ℕ)) (records : List Decoded) (coming : List Outcome) (events : List Event) → CanBeOpened records → RecordsMatch names records coming events }
    ensures at_the_end { (names : List (List ℕ)) (records : List Decoded) (coming : List Outcome) (events : List Event) → CanBeOpened records → EndMatches names records coming events }
{}

/// Outcomes behind those that the commits of some lines used change nothing of what these lines are
/// answered and leave. So a program that doesn't know them yet has answered these lines all the same,
/// and goes on with the outcomes that the next line's commit tells. See docs/SHARING.md, 'Commits on
/// a disk'.
pub fn text_is_told_once()
    ensures told { (names : List (List ℕ)) (records : List Decoded) (coming more : List Outcome) (events : List Event) →
        used (world_at names records coming events).shared ≤ length coming →
        SameOf (by_history coming) (by_history (coming ++ more)) (opening names records) events }
    ensures goes_on { (names : List (List ℕ)) (records : List Decoded) (coming new : List Outcome) (events : List Event) (event : Event) →
        used (world_at names records coming events).shared ≤ length coming →
        GoesOn store_writing history_machine (opening names records) coming new events event }
{}

/// A line is refused with 30, which is written, exactly where the disk failed in one attempt more.
/// So the number of these lines is the number of attempts in which the disk failed, and that of the
/// commits' outcomes that are faults. See docs/SHARING.md, 'Commits on a disk'.
pub fn faults_are_seen()
    ensures each { (coming : List Outcome) (w : HistoryWorld) (event : Event) → SeesFaults is_fault (by_history coming) fault_answer w event }
    ensures all { (coming : List Outcome) (w : HistoryWorld) (events : List Event) → FaultsAreSeen is_fault (by_history coming) w events }
{}

/// Where each commit's outcome is done, nothing depends on the list of outcomes: the text, the
/// refusals, the attempts and the world are those with no outcomes at all. See docs/SHARING.md,
/// 'What is proved'.
pub fn done_outcomes_change_nothing()
    ensures { (names : List (List ℕ)) (records : List Decoded) (outcomes : List Outcome) (events : List Event) → AreDone outcomes → IsAsWithNone names records outcomes events }
{}

/// The objects as they stand, which the code keeps, write the text, refuse the lines and make the
/// attempts that the commits and the owners do. See docs/SHARING.md, 'What is proved'.
pub fn objects_answer_as_commits()
    ensures { (names : List (List ℕ)) (records : List Decoded) (coming : List Outcome) (events : List Event) → AreAlike names records coming events }
{}

/// After an attempt that was done, a crash leaves the records with which the disk was opened and
/// those of all attempts that were done, and nothing else. See docs/SHARING.md, 'Commits on a disk'.
pub fn acknowledged_records_are_left()
    ensures { (opened : List Decoded) (made : List (Attempt Decoded)) (attempted : Decoded) (records : List Decoded) → LeavesAllDone SameRecords opened made attempted records }
{}

/// What a crash at any moment leaves of these lines is the records with which the disk was opened, or
/// what the same lines settle with other outcomes of their commits, in a run that makes the same first
/// attempts, among which are all that were done by then. So every law on the commits of a run holds of
/// what a crash leaves. It can be opened, also where the definitions alone were to be written. See
/// docs/SHARING.md, 'What is proved'.
pub fn crashes_leave_what_a_run_settles()
    ensures settled { (names : List (List ℕ)) (records : List Decoded) (coming : List Outcome) (events : List Event) → LeavesARunOf names records coming events }
    ensures opens { (names : List (List ℕ)) (records : List Decoded) (coming : List Outcome) (events : List Event) → CanBeOpened records → LeavesWhatOpens names records coming events }
{}

/// A line that is of no session leaves the sessions, their names and the shared state, and doesn't
/// close the definitions; so does the end of a block. A line of no form is refused, and leaves the
/// definitions too. The definitions are closed by the first line of a session, or by the end of a
/// script that has any, and by nothing else. See docs/LANGUAGE.md, 'Scripts'.
pub fn lines_of_no_session_stay_apart()
    ensures apart { (coming : List Outcome) (w : HistoryWorld) (event : Event) → LeavesApart (by_history coming) w event }
    ensures malformed { (coming : List Outcome) (w : HistoryWorld) (text : List ℕ) → MalformedIsRefused (by_history coming) w text }
    ensures closing { (coming : List Outcome) (w : HistoryWorld) (event : Event) → ClosesExactly (by_history coming) w event }
{}

/// Each line of a session is answered once, by one line under the session's name as it was first
/// written, or under `*` for a session past the 64th. See docs/LANGUAGE.md, 'Scripts'.
pub fn session_lines_are_answered_once()
    ensures { (coming : List Outcome) (w : HistoryWorld) (event : Event) → SessionsAreAnswered IsOneLine (by_history coming) w event }
{}

/// The text of a run tells how its commits ended: with two rows of outcomes that give the same text,
/// the same lines leave the same world, and so make the same attempts, which end the same way. See
/// docs/SHARING.md, 'Commits on a disk'.
pub fn text_fixes_outcomes()
    ensures { (names : List (List ℕ)) (records : List Decoded) (one other : List Outcome) (events : List Event) → TextFixesWorld store_writing history_machine (among one) (among other) (opening names records) events }
{}

/// What `dump` prints tells the number of each object's latest generation and its body, every value,
/// slot and cell of it: two dumps of the same definitions that are the same text are of the same
/// numbers and bodies. So it is of any fewer than 2 ^ 64 records that a workspace opens with. See
/// docs/FORMATS.md, 'A dump'.
pub fn dumps_tell_numbers_and_cells()
    ensures objects { (definitions : List Def) (one other : List (Option (Object Body))) → DumpTells definitions one other }
    ensures records { (one other : List Decoded) → RecordsTell one other }
{
    aw_cell::texts_tell_apart();
}

/// The lines of a script, each with the CR that was taken from it and with its LF, give back the
/// script, and no LF stands within a line. See docs/LANGUAGE.md, 'Scripts'.
pub fn lines_give_back_the_script()
    ensures { (script : List ℕ) → LinesAreSplit script }
{}

/// A session's line is answered by a turn of this session, or refused and leaves it: what the laws on
/// commands say of turns, they say of lines. See docs/SHARING.md, 'What is proved'.
pub fn lines_take_turns()
    ensures { (coming : List Outcome) (w : HistoryWorld) → LinesTakeTurns coming w }
{}

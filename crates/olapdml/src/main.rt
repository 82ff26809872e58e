//! `olapdml PATH play < SCRIPT` plays a script of definitions and session lines on the workspace in
//! the file PATH, and writes the transcript. `olapdml PATH new` makes the workspace, and
//! `olapdml PATH dump` writes what it holds.
#![tactic(auto)]

use aw_cell::Text;
use aw_disk::FileDisk;
use aw_feed::Feed;
use aw_io::{StdSink, StdSource};
use script_play::run;
use std::fs::{File, OpenOptions};
use std::os::fd::AsRawFd;
use std::process::ExitCode;
use std::rt::Env;
use std::{env, io};

const HELP: &str = "olapdml PATH new
olapdml PATH play < SCRIPT
olapdml PATH dump

Makes a workspace in the file PATH, plays a script of definitions and session lines on it and
writes the transcript, or writes what it holds.

A refused line is answered by ERROR, a number and its detail:

   1  what stands at this column can't, or this statement doesn't run yet
      write the statement as docs/LANGUAGE.md has it
   2  the name isn't defined
      define it in a line before
   3  the object is of a kind that can't stand there
      name one of the kind that the statement needs
   4  the types don't fit
      use values of types that go together
   5  the dimensions don't fit
      fix those that the target lacks
   6  the dimension hasn't the value
      name a value that it has
   7  the name is defined already, or comes twice
      choose another name, or write it once
   8  SHOW over a dimension that has no values
      give it values, or fix one
   9  a number is out of the range of its type
      compute with smaller values
  10  a division by zero
      ask for the divisor by IF
  14  more than 4,096 objects, 6 dimensions, 4,194,304 cells or 67,108,864 bytes of a commit's record;
      too long an expression
      define, assign, or update and commit less at once
  15  the session isn't attached
      begin with AW ATTACH
  16  the session is attached already
      leave the second AW ATTACH out, or AW DETACH first
  17  another session owns the object
      wait until its owner, who is named, releases it
  18  the object has a generation that is newer than the session's
      RESYNC it, and change the newer value
  19  the session doesn't own the object
      ACQUIRE it first
  20  the session owns the object
      COMMIT and RELEASE it first
  21  the definitions are written, and stay as they are
      define all objects before the first session line, on a new workspace
  22  the object has cells on 65,536 pages, 65,536 slots or the last generation number that there is
      assign fewer cells, or define another object on a new workspace
  23  the session attached with RO, and only reads
      AW DETACH, and AW ATTACH MULTI
  24  a line of a program begins with a word of session lines
      leave the line out of the program
  27  the line has more than 4,096 bytes, or a byte that no line has
      shorten it, or leave the byte out
  28  the script names a 65th session
      use 64 names
  30  the disk failed in the commit, of which nothing is kept
      see to the disk, and COMMIT again

It ends with one of these statuses:

   0  all was done, and no line was refused     5  the workspace failed, or is in use
   1  all was done, and some line was refused   6  memory ran out
   2  the words are no command                  7  the file is no workspace
   3  reading the script failed                 8  the workspace is damaged
   4  writing failed                            9  the file is a workspace already
                                               10  the script has more than 67,108,864 bytes";

const VERSION: &str = "olapdml 0.2.0";

// The descriptors of the first and the last of the standard streams.
const STANDARD_INPUT: i32 = 0;

const STANDARD_ERROR: i32 = 2;

// The statuses at which a device failed, or memory ran out (docs/LANGUAGE.md, "Statuses").
const SCRIPT_FAILED: u8 = 3;

const OUTPUT_FAILED: u8 = 4;

const WORKSPACE_FAILED: u8 = 5;

const NO_MEMORY: u8 = 6;

/// The words of the command line: the path of the workspace, and the words behind it.
#[derive(Drop)]
struct CommandLine {
    path: Option<String>,
    words: Vec<Text>,
}

/// A word of the command line as a text; one that is none becomes the empty one.
fn word_of(argument: &str) -> Text {
    match Text::of(argument.as_bytes()) {
        Some(word) => word,
        None => Text::of(b"").unwrap(),
    }
}

/// The words after the program's name.
fn read_words<R: Env + AllocGlobal>(rt: &R) -> io::Result<CommandLine> {
    let mut arguments = env::args(rt)?.skip(1);
    let path = arguments.next();
    let mut words = Vec::new(rt.alloc());
    for argument in arguments {
        words.push(word_of(argument.as_str()))?;
    }
    Ok(CommandLine { path, words })
}

/// Takes the lowest free descriptor where it is one of the standard streams: for standard input by a
/// file that can't be read, and else by one that can't be written.
fn take_lowest(rt: &HostRuntime) -> io::Result<Option<File>> {
    let unread = OpenOptions::new().write(true).open(rt, "/dev/null")?;
    if unread.as_raw_fd() == STANDARD_INPUT {
        return Ok(Some(unread));
    }
    if unread.as_raw_fd() > STANDARD_ERROR {
        return Ok(None);
    }
    drop(unread);
    Ok(Some(File::open(rt, "/dev/null")?))
}

/// Says on standard error which device failed, and what the system said.
fn complain(rt: &impl Eprint, device: &str, error: Option<io::Error>) {
    if let Some(error) = error {
        let _ = eprintln!(rt; "{device}: {error}");
    }
}

fn complain_of_memory(rt: &impl Eprint) {
    let _ = eprintln!(rt; "memory: none is left");
}

/// Does what the words say, on the workspace in this file.
fn work(rt: &HostRuntime, path: &str, words: &[Text]) -> u8 {
    let mut disk = FileDisk::open(rt, path);
    let mut script = StdSource::new(rt.reader());
    let mut out = StdSink::new(io::writer(rt));
    // Nobody listens yet.
    let mut feed = Feed::new(Vec::new(rt.alloc()));
    let status = run(
        rt.alloc(),
        words,
        &mut script,
        &mut out,
        &mut disk,
        &mut feed,
    );
    match status {
        SCRIPT_FAILED => complain(rt, "standard input", script.error()),
        OUTPUT_FAILED => complain(rt, "standard output", out.error()),
        WORKSPACE_FAILED => complain(rt, path, disk.error()),
        NO_MEMORY => complain_of_memory(rt),
        _ => {}
    }
    status
}

/// Prints a text that was asked for; a failure is the sink's.
fn tell(rt: &(impl Print + Eprint), text: &str) -> u8 {
    match rt.println(text) {
        Ok(()) => 0,
        Err(error) => {
            complain(rt, "standard output", Some(error));
            OUTPUT_FAILED
        }
    }
}

fn main(rt: HostRuntime) -> ExitCode {
    // Before any file is opened, and to the end: else a file would be read or written as a stream.
    let _streams = [take_lowest(&rt), take_lowest(&rt), take_lowest(&rt)];
    let given = match read_words(&rt) {
        Ok(given) => given,
        Err(error) if error.kind() == io::ErrorKind::OutOfMemory => {
            complain_of_memory(&rt);
            return ExitCode::from(NO_MEMORY);
        }
        // Words that aren't UTF-8 are no command.
        Err(_) => CommandLine {
            path: None,
            words: Vec::new(rt.alloc()),
        },
    };
    let path = match &given.path {
        Some(path) => path.as_str(),
        None => "",
    };
    let words = given.words.as_slice();
    let status = match path {
        "--help" if words.is_empty() => tell(&rt, HELP),
        "--version" if words.is_empty() => tell(&rt, VERSION),
        path => work(&rt, path, words),
    };
    ExitCode::from(status)
}

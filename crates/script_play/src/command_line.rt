ghost use Rattle.std.specs.Prelude.{◌≡◌, ◌≢◌, ◌≤◌, IfSome, IsSome};
ghost use Rattle.aw_lists.specs.Faults.{Rose};
ghost use Rattle.script_disk.specs.Dumped.{Dumps, CompletesDump};
ghost use Rattle.script_disk.specs.WhyUnopened.{AreFormatted, ExplainsContent};
ghost use Rattle.script_disk.specs.Made.{Makes};
ghost use Rattle.script_disk.specs.Texts.{Says};
ghost use Rattle.script_play.specs.Runs as spec;
ghost use Rattle.script_play.specs.Runs.{run_of, Plays};

use crate::whole_run::play;
use aw_cell::Text;
use aw_disk::Disk;
use aw_feed::{Feed, Listeners};
use aw_io::{Sink, Source, put_all};
use script_disk::{dump, make};
use std::alloc::Global;

const USAGE: &[u8] = b"usage: play, new, dump, make N\n";

/// What the words of the command line ask for.
#[derive(Clone, Copy)]
enum Subcommand {
    Play,
    New,
    Dump,
    Other,
}

fn is_word(wanted: &[u8], words: &[Text]) -> bool
    ensures { result ≡ spec.is_word wanted.now words.now }
{
    match words {
        [word] => word.bytes() == wanted,
        _ => false,
    }
}

fn subcommand_of(words: &[Text]) -> Subcommand
    ensures { result ≡ spec.subcommand_of words.now }
{
    if is_word(b"play", words) {
        return Subcommand::Play;
    }
    if is_word(b"new", words) {
        return Subcommand::New;
    }
    if is_word(b"dump", words) {
        Subcommand::Dump
    } else {
        Subcommand::Other
    }
}

fn usage<K: Sink>(out: &mut K) -> u8
    ensures refuses { Says 2 spec.usage result (K.written out.old) (K.written out.new) }
    ensures later { K.faults out.old ≤ K.faults out.new }
    ensures cause { result ≡ 4 → Rose (K.faults out.old) (K.faults out.new) }
{
    match put_all(out, USAGE) {
        Ok(()) => 2,
        Err(_) => 4,
    }
}

/// Runs the command that the words ask for; they are those of the command line behind the path of
/// the disk. See docs/LANGUAGE.md, 'Scripts' and 'Statuses', and docs/FORMATS.md, 'The journal'.
///
/// - `play` opens the disk, plays the script that the source gives, and writes the transcript to the
///   sink: each line is answered, and the answer is written, before the next is taken up. Each record
///   that the disk has acknowledged is told the listeners of the feed, once and in order, before the
///   answer of its line is written (docs/SHARING.md, 'Listeners').
/// - `new` formats a disk that isn't formatted.
/// - `dump` writes what the disk stands for.
///
/// The answer is the status:
///
/// - 0: the script was read to its end, and no line was refused; or the work was done.
/// - 1: the script was read to its end, and some line was refused.
/// - 2: the words are no command. The usage line is written, and the script and the disk are left
///   alone.
/// - 3: the source failed. The lines that ended in the bytes taken are answered.
/// - 4: the sink failed. A front of what was due is written.
/// - 5: the disk failed while it was opened or formatted, or while the definitions were written. The
///   lines so far are answered.
/// - 6: memory ran out. A front of what was due is written.
/// - 7: the disk has fewer than 9 bytes or another head.
/// - 8: a frame of the disk is cut short, or is no record, or can't be replayed.
/// - 9: `new` found a disk that is formatted.
/// - 10: the script has more than 67,108,864 bytes. The lines that ended in as many are answered.
pub fn run<S: Source, K: Sink, D: Disk>(
    alloc: Global,
    words: &[Text],
    script: &mut S,
    out: &mut K,
    disk: &mut D,
    feed: &mut Feed,
) -> u8
    ensures plays { spec.subcommand_of words.now ≡ Subcommand.Play → Plays (run_of S.left S.faults K.written K.faults D.content D.faults D.clock D.crash script.old script.new out.old out.new disk.old disk.new (⟦<Feed as Listeners>⟧.listening feed.old) (⟦<Feed as Listeners>⟧.listening feed.new)) result }
    ensures makes { spec.subcommand_of words.now ≡ Subcommand.New
        → Makes D.content D.faults D.clock D.crash disk.old disk.new (K.written out.old) (K.written out.new) result }
    ensures dumps { spec.subcommand_of words.now ≡ Subcommand.Dump
        → Dumps D.content D.clock D.crash disk.old disk.new (K.written out.old) (K.written out.new) result }
    ensures dump_completes { spec.subcommand_of words.now ≡ Subcommand.Dump → AreFormatted (D.crash disk.old (D.clock disk.old)) → IsSome (D.content disk.old)
        → ¬ (Rose (D.faults disk.old) (D.faults disk.new)) → ¬ (Rose (K.faults out.old) (K.faults out.new))
        → CompletesDump result }
    ensures dump_explains { spec.subcommand_of words.now ≡ Subcommand.Dump → IfSome (D.content disk.old) (ExplainsContent result) }
    ensures refuses { spec.subcommand_of words.now ≡ Subcommand.Other → Says 2 spec.usage result (K.written out.old) (K.written out.new) }
    ensures untouched { spec.subcommand_of words.now ≢ Subcommand.Play → script.new ≡ script.old }
    ensures unopened { spec.subcommand_of words.now ≡ Subcommand.Other → disk.new ≡ disk.old }
    ensures source_later { S.faults script.old ≤ S.faults script.new }
    ensures sink_later { K.faults out.old ≤ K.faults out.new }
    ensures disk_later { D.faults disk.old ≤ D.faults disk.new }
    ensures source_cause { result ≡ 3 → Rose (S.faults script.old) (S.faults script.new) }
    ensures sink_cause { result ≡ 4 → Rose (K.faults out.old) (K.faults out.new) }
    ensures disk_cause { result ≡ 5 → Rose (D.faults disk.old) (D.faults disk.new) }
    ensures untold { spec.subcommand_of words.now ≢ Subcommand.Play → feed.new ≡ feed.old }
{
    match subcommand_of(words) {
        Subcommand::Play => play(alloc, script, out, disk, feed),
        Subcommand::New => make(disk, out),
        Subcommand::Dump => dump(alloc, disk, out),
        Subcommand::Other => usage(out),
    }
}

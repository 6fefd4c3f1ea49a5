//! The command `dwframe`: answers about one raw section of call frame information (DWARF 5, 6.4.1). `dw_command::engine` is the whole command over a list
//! of words, files and two outputs; `main` runs it over the real ones.
#![tactic(auto)]

ghost use Rattle.std.specs.{Prelude.{◌≡◌, ◌≢◌, ⊤, ◌≤◌, map, string_bytes}, IoError.error_kind};
ghost use Rattle.dw_command.specs.Engine.{Runs};

mod held;

use crate::held::Held;
use dw_command::{Disk, Hinted, Load, Shown, engine};
use dw_files::{Explained, Piped};
use std::io::{ErrorKind, IsTerminal, Write};
use std::process::ExitCode;
use std::{env, io};

// No clause of the system's arguments says what they are, so none can say that these are they.
fn words_of(rt: &HostRuntime) -> io::Result<Vec<String>> {
    Ok(env::args(rt)?.collect(rt.alloc())?)
}

// The exit status of the command, whose one line of a failure goes on to `err` unless the reader of a pipe has gone.
fn run_held<L: Load, W: Write, E: Write>(
    rt: &HostRuntime,
    words: &[String],
    files: &mut L,
    out: &mut Piped<W>,
    err: &mut Held<E>,
) -> u8
    ensures runs { Runs (L.gives files.old) (W.contents out.old.out) (W.contents out.new.out) (map string_bytes words.now) result }
    ensures most { result ≤ 5 }
{
    let status = engine(rt.alloc(), words, files, out, err);
    let _ = err.finish(out.is_closed());
    status
}

// The same over the files of the system, for people: beside the one line of a failure, hints say more. A terminal is told no control characters of a path.
fn run_for_people<W: Write>(rt: &HostRuntime, words: &[String], out: &mut Piped<W>) -> u8
    ensures runs { Runs (λ _ _. ⊤) (W.contents out.old.out) (W.contents out.new.out) (map string_bytes words.now) result }
    ensures most { result ≤ 5 }
{
    let files = Explained::new(Disk::new(rt), rt, Shown::new(rt.stderr()));
    let mut files = Hinted::new(files, Shown::new(rt.stderr()));
    let mut err = Held::new(Shown::new(rt.stderr()));
    run_held(rt, words, &mut files, out, &mut err)
}

// The same, also for programs, which find one line on standard error.
fn run<W: Write>(rt: &HostRuntime, words: &[String], out: &mut Piped<W>) -> u8
    // It is the status of an answer to these words, whatever the files hold.
    ensures runs { Runs (λ _ _. ⊤) (W.contents out.old.out) (W.contents out.new.out) (map string_bytes words.now) result }
    ensures most { result ≤ 5 }
{
    let mut err = rt.stderr();
    if err.is_terminal() {
        return run_for_people(rt, words, out);
    }
    engine(rt.alloc(), words, &mut Disk::new(rt), out, &mut err)
}

// Without words there is no run: memory ran out, or a word is not text.
fn status_without_run(rt: &HostRuntime, error: &io::Error) -> u8
    ensures memory { error_kind error.now ≡ ErrorKind.OutOfMemory → result ≡ 5 }
    ensures word { error_kind error.now ≢ ErrorKind.OutOfMemory → result ≡ 3 }
{
    let mut err = rt.stderr();
    if error.kind() == ErrorKind::OutOfMemory {
        let _ = err.write_all(b"out of memory\n");
        return 5;
    }
    let _ = err.write_all(b"a word is not text\n");
    3
}

fn main(rt: HostRuntime) -> ExitCode {
    let status = match words_of(&rt) {
        Ok(words) => run(&rt, &words, &mut Piped::new(rt.stdout())),
        Err(error) => status_without_run(&rt, &error),
    };
    ExitCode::from(status)
}

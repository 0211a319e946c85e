//! Works scripts: reads commands, one to a line, and answers each.
#![tactic(auto)]

mod answer;
mod cut;
mod line;
mod numbers;
mod places;
mod point;
mod reading;
mod window;
mod work;

ghost use Rattle.std.specs.Prelude.{◌≡◌, [], OnOk};
ghost use Rattle.bigvosk.specs.Scripts.{kind_after, lines_of};

use std::io::Read;
use std::{env, fs, io};
use work::Session;

/// Works a script and prints what it prints; nothing of it is left to print again.
fn print_script(rt: &HostRuntime, session: &mut Session, script: &[u8]) -> io::Result<()>
    ensures kind { OnOk result (session.new.kind ≡ kind_after session.old.kind (lines_of script.now)) }
    ensures out { OnOk result (session.new.out.items ≡ []) }
{
    session.work_script(script)?;
    rt.write_all(session.out.as_slice())?;
    // A new list, and not the old one emptied: what a file printed is not kept in memory while the next is read.
    session.out = Vec::new(rt.alloc());
    Ok(())
}

/// The bytes of a file, or a message.
fn file_bytes(rt: &HostRuntime, path: &str) -> io::Result<Vec<u8>> {
    let found = fs::read(rt, path);
    if let Err(error) = &found {
        eprintln!(rt; "bigvosk: cannot read {path}: {error}")?;
    }
    found
}

/// The bytes of standard input.
fn input_bytes(rt: &HostRuntime) -> io::Result<Vec<u8>> {
    let mut bytes = Vec::new(rt.alloc());
    rt.stdin().read_to_end(&mut bytes)?;
    Ok(bytes)
}

/// Works the files that are named as arguments, or standard input where there are none.
fn main(rt: HostRuntime) -> io::Result<()> {
    let mut session = Session::new(rt.alloc());
    let mut paths = env::args(&rt)?.skip(1).peekable();
    if paths.peek().is_none() {
        let script = input_bytes(&rt)?;
        return print_script(&rt, &mut session, script.as_slice());
    }
    for path in paths {
        let script = file_bytes(&rt, path.as_str())?;
        print_script(&rt, &mut session, script.as_slice())?;
    }
    Ok(())
}

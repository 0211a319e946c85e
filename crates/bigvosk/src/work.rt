//! Working the lines of a script, one after another.
ghost use Rattle.std.specs.Prelude.{◌≡◌, [], ◌++◌, OnOk};
ghost use Rattle.bigvosk.specs.Answers.{answer_to};
ghost use Rattle.label.specs.declared.named.KindName.TheVariants.{Words};
ghost use Rattle.bigvosk.specs.Commands.{command_of, told};
ghost use Rattle.bigvosk.specs.Scripts.{Lines, kind_after, lines_of, next_kind, printed, transcript};

use crate::answer::write_outcome;
use crate::cut::cut;
use crate::line::{Command, command_of};
use crate::places::write_places;
use crate::reading::read_as;
use label::named::KindName;
use std::alloc::{AllocError, Global};

/// What is at work: the kind of labels that the commands so far have chosen, and what they have printed.
#[derive(Drop)]
pub struct Session {
    pub kind: KindName,
    pub out: Vec<u8>,
}

impl Session {
    /// Nothing is printed yet, and labels are words.
    pub fn new(heap: Global) -> Session
        ensures kind { result.kind ≡ Words }
        ensures out { result.out.items ≡ [] }
    {
        Session {
            kind: KindName::Words,
            out: Vec::new(heap),
        }
    }

    /// Obeys a command: prints its answer, and goes on with the kind of labels that it chooses.
    fn obey(&mut self, command: Command<'_>) -> Result<(), AllocError>
        ensures kind { OnOk result (self.new.kind ≡ next_kind self.old.kind (told command.entry)) }
        ensures print { OnOk result (self.new.out.items ≡ self.old.out.items ++ answer_to self.old.kind (told command.entry)) }
    {
        let out = &mut self.out;
        match command {
            Command::Pass => Ok(()),
            Command::Kind(kind) => {
                self.kind = kind;
                out.extend_from_slice(b"done\n")
            }
            Command::Read(text) => {
                // Writing into a list fails where there is no memory, and nowhere else.
                write_outcome(out, read_as(self.kind, text), text).map_err(|_| AllocError)
            }
            Command::Places(n, order) => write_places(out, n, order),
            Command::Unknown => out.extend_from_slice(b"unknown command\n"),
        }
    }

    /// Works a line: prints the line and the answer to its command, unless there is nothing to do.
    #[tactic(auto, unfolding(crate::specs::Scripts::printed))]
    pub fn work_line(&mut self, line: &[u8]) -> Result<(), AllocError>
        ensures kind { OnOk result (self.new.kind ≡ next_kind self.old.kind (command_of line.now)) }
        ensures print { OnOk result (self.new.out.items ≡ self.old.out.items ++ printed self.old.kind line.now) }
    {
        let command = command_of(line);
        if matches!(command, Command::Pass) {
            return Ok(());
        }
        // Bytes as they are: `write!` makes a formatter for each line.
        self.out.extend_from_slice(b"> ")?;
        self.out.extend_from_slice(line)?;
        self.out.push(b'\n')?;
        self.obey(command)
    }

    /// Works a whole script.
    #[tactic(auto, using(crate::proofs::Working::kind_end, crate::proofs::Working::print_end, crate::proofs::Lining::lines_stand))]
    pub fn work_script(&mut self, script: &[u8]) -> Result<(), AllocError>
        ensures kind { OnOk result (self.new.kind ≡ kind_after self.old.kind (lines_of script.now)) }
        ensures print { OnOk result (self.new.out.items ≡ self.old.out.items ++ transcript self.old.kind (lines_of script.now)) }
        ensures lines { Lines script.now (lines_of script.now) }
    {
        // A loop by hand: with the library's `split_inclusive` or `split` a blank line takes about one and a half times as long.
        let mut rest = script;
        while !rest.is_empty() {
            let (line, after) = cut(b'\n', rest);
            self.work_line(line)?;
            rest = after;
        }
        Ok(())
    }
}

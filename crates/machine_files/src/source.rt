//! Standard input as the source.
use crate::calls::read_once;
use crate::machine::FileMachine;
use machine_model::{Failed, Source};
use std::fs::OpenFile;
use std::io::{Read, Seek, Write};
use std::os::unix::fs::FileExt;

impl<F: FileExt + Seek + OpenFile, I: Read, O: Write> Source for FileMachine<F, I, O> {
    ghost use Rattle.machine_model.specs.Pulls.{ArePulls};
    ghost use Rattle.machine_model.proofs.PullLemmas.{source_laws};
    ghost use Rattle.machine_files.specs.Telling.{OnlySource};
    ghost use Rattle.machine_files.specs.Laws.{OnlySource-same, OnlySource-joins};
    ghost use Rattle.machine_files.specs.Meaning.{meaning, source_state};

    ghost source_tells = { ⊥ };

    ghost source = { source_state };

    ghost only = { λ x y. OnlySource (meaning x) (meaning y) };

    ghost pulled = { λ x lefts y. ArePulls (λ m. m.source.left) OnlySource (meaning x) lefts (meaning y) };

    ghost laws = { source_laws meaning (λ m. m.source) OnlySource OnlySource-same OnlySource-joins (λ x y one. one.faults)
        (λ x. x.source_faults.limit) };

    fn pull(&mut self, buf: &mut [u8]) -> Result<usize, Failed> {
        match read_once(&mut self.input, buf) {
            Ok(count) => Ok(count),
            Err(Failed) => {
                self.source_faults.rise();
                Err(Failed)
            }
        }
    }
}
